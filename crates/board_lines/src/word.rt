//! The words of the commands.

ghost use Rattle.std.specs.Prelude.{◌≡◌, bytes_eq};
ghost use Rattle.std.specs.Map.{lookup};
ghost use Rattle.board_lines.specs.Table.{word_of, of_letter};

use rbac_core::Separation;

/// A command of the board, by family. Each has one word, which a line names it by.
#[derive(Clone, Copy)]
pub enum Word {
    /// A proposal, which names a base.
    Propose(MoveWord),
    /// A pin or a freeze.
    Hold(HoldWord),
    /// A change of users, roles, assignments, permissions and pairs.
    Manage(ManageWord),
    /// A change of the sets of one kind of separation of duty.
    Separate(Separation, SetWord),
    /// A change of sessions.
    Session(SessionWord),
    /// A question.
    Ask(AskWord),
}

/// The moves.
#[derive(Clone, Copy)]
pub enum MoveWord {
    Insert,
    Remove,
    Shift,
    Swap,
    Reverse,
    Cross,
}

/// Pins and freezes.
#[derive(Clone, Copy)]
pub enum HoldWord {
    Pin,
    Unpin,
    Freeze,
    Thaw,
}

/// Changes of users, roles, assignments, permissions and pairs.
#[derive(Clone, Copy)]
pub enum ManageWord {
    AddUser,
    DeleteUser,
    AddRole,
    DeleteRole,
    Assign,
    Deassign,
    Grant,
    Revoke,
    Inherit,
    Uninherit,
    Migrate,
}

/// Changes of a set of separation of duty.
#[derive(Clone, Copy)]
pub enum SetWord {
    Create,
    Add,
    Drop,
    Delete,
    Number,
}

/// Changes of sessions.
#[derive(Clone, Copy)]
pub enum SessionWord {
    Open,
    Close,
    Activate,
    Deactivate,
}

/// Questions.
#[derive(Clone, Copy)]
pub enum AskWord {
    List,
    Json,
    Audit,
    Check,
    Users,
    Roles,
    Active,
}

fn of_a(word: &[u8]) -> Option<Word>
    ensures { result ≡ lookup (bytes_eq word.now) (of_letter 97) }
{
    if word == b"audit".as_slice() {
        Some(Word::Ask(AskWord::Audit))
    } else if word == b"active".as_slice() {
        Some(Word::Ask(AskWord::Active))
    } else if word == b"add-user".as_slice() {
        Some(Word::Manage(ManageWord::AddUser))
    } else if word == b"add-role".as_slice() {
        Some(Word::Manage(ManageWord::AddRole))
    } else if word == b"assign".as_slice() {
        Some(Word::Manage(ManageWord::Assign))
    } else if word == b"activate".as_slice() {
        Some(Word::Session(SessionWord::Activate))
    } else {
        None
    }
}

fn of_c(word: &[u8]) -> Option<Word>
    ensures { result ≡ lookup (bytes_eq word.now) (of_letter 99) }
{
    if word == b"check".as_slice() {
        Some(Word::Ask(AskWord::Check))
    } else if word == b"cross".as_slice() {
        Some(Word::Propose(MoveWord::Cross))
    } else if word == b"close".as_slice() {
        Some(Word::Session(SessionWord::Close))
    } else {
        None
    }
}

fn of_d(word: &[u8]) -> Option<Word>
    ensures { result ≡ lookup (bytes_eq word.now) (of_letter 100) }
{
    if word == b"delete-user".as_slice() {
        Some(Word::Manage(ManageWord::DeleteUser))
    } else if word == b"delete-role".as_slice() {
        Some(Word::Manage(ManageWord::DeleteRole))
    } else if word == b"deassign".as_slice() {
        Some(Word::Manage(ManageWord::Deassign))
    } else if word == b"dsd-create".as_slice() {
        Some(Word::Separate(Separation::Dynamic, SetWord::Create))
    } else if word == b"dsd-add".as_slice() {
        Some(Word::Separate(Separation::Dynamic, SetWord::Add))
    } else if word == b"dsd-drop".as_slice() {
        Some(Word::Separate(Separation::Dynamic, SetWord::Drop))
    } else if word == b"dsd-delete".as_slice() {
        Some(Word::Separate(Separation::Dynamic, SetWord::Delete))
    } else if word == b"dsd-number".as_slice() {
        Some(Word::Separate(Separation::Dynamic, SetWord::Number))
    } else if word == b"deactivate".as_slice() {
        Some(Word::Session(SessionWord::Deactivate))
    } else {
        None
    }
}

fn of_f(word: &[u8]) -> Option<Word>
    ensures { result ≡ lookup (bytes_eq word.now) (of_letter 102) }
{
    if word == b"freeze".as_slice() {
        Some(Word::Hold(HoldWord::Freeze))
    } else {
        None
    }
}

fn of_g(word: &[u8]) -> Option<Word>
    ensures { result ≡ lookup (bytes_eq word.now) (of_letter 103) }
{
    if word == b"grant".as_slice() {
        Some(Word::Manage(ManageWord::Grant))
    } else {
        None
    }
}

fn of_i(word: &[u8]) -> Option<Word>
    ensures { result ≡ lookup (bytes_eq word.now) (of_letter 105) }
{
    if word == b"insert".as_slice() {
        Some(Word::Propose(MoveWord::Insert))
    } else if word == b"inherit".as_slice() {
        Some(Word::Manage(ManageWord::Inherit))
    } else {
        None
    }
}

fn of_j(word: &[u8]) -> Option<Word>
    ensures { result ≡ lookup (bytes_eq word.now) (of_letter 106) }
{
    if word == b"json".as_slice() {
        Some(Word::Ask(AskWord::Json))
    } else {
        None
    }
}

fn of_l(word: &[u8]) -> Option<Word>
    ensures { result ≡ lookup (bytes_eq word.now) (of_letter 108) }
{
    if word == b"list".as_slice() {
        Some(Word::Ask(AskWord::List))
    } else {
        None
    }
}

fn of_m(word: &[u8]) -> Option<Word>
    ensures { result ≡ lookup (bytes_eq word.now) (of_letter 109) }
{
    if word == b"migrate".as_slice() {
        Some(Word::Manage(ManageWord::Migrate))
    } else {
        None
    }
}

fn of_o(word: &[u8]) -> Option<Word>
    ensures { result ≡ lookup (bytes_eq word.now) (of_letter 111) }
{
    if word == b"open".as_slice() {
        Some(Word::Session(SessionWord::Open))
    } else {
        None
    }
}

fn of_p(word: &[u8]) -> Option<Word>
    ensures { result ≡ lookup (bytes_eq word.now) (of_letter 112) }
{
    if word == b"pin".as_slice() {
        Some(Word::Hold(HoldWord::Pin))
    } else {
        None
    }
}

fn of_r(word: &[u8]) -> Option<Word>
    ensures { result ≡ lookup (bytes_eq word.now) (of_letter 114) }
{
    if word == b"roles".as_slice() {
        Some(Word::Ask(AskWord::Roles))
    } else if word == b"remove".as_slice() {
        Some(Word::Propose(MoveWord::Remove))
    } else if word == b"reverse".as_slice() {
        Some(Word::Propose(MoveWord::Reverse))
    } else if word == b"revoke".as_slice() {
        Some(Word::Manage(ManageWord::Revoke))
    } else {
        None
    }
}

fn of_s(word: &[u8]) -> Option<Word>
    ensures { result ≡ lookup (bytes_eq word.now) (of_letter 115) }
{
    if word == b"shift".as_slice() {
        Some(Word::Propose(MoveWord::Shift))
    } else if word == b"swap".as_slice() {
        Some(Word::Propose(MoveWord::Swap))
    } else if word == b"ssd-create".as_slice() {
        Some(Word::Separate(Separation::Static, SetWord::Create))
    } else if word == b"ssd-add".as_slice() {
        Some(Word::Separate(Separation::Static, SetWord::Add))
    } else if word == b"ssd-drop".as_slice() {
        Some(Word::Separate(Separation::Static, SetWord::Drop))
    } else if word == b"ssd-delete".as_slice() {
        Some(Word::Separate(Separation::Static, SetWord::Delete))
    } else if word == b"ssd-number".as_slice() {
        Some(Word::Separate(Separation::Static, SetWord::Number))
    } else {
        None
    }
}

fn of_t(word: &[u8]) -> Option<Word>
    ensures { result ≡ lookup (bytes_eq word.now) (of_letter 116) }
{
    if word == b"thaw".as_slice() {
        Some(Word::Hold(HoldWord::Thaw))
    } else {
        None
    }
}

fn of_u(word: &[u8]) -> Option<Word>
    ensures { result ≡ lookup (bytes_eq word.now) (of_letter 117) }
{
    if word == b"users".as_slice() {
        Some(Word::Ask(AskWord::Users))
    } else if word == b"unpin".as_slice() {
        Some(Word::Hold(HoldWord::Unpin))
    } else if word == b"uninherit".as_slice() {
        Some(Word::Manage(ManageWord::Uninherit))
    } else {
        None
    }
}

impl Word {
    /// The command that the word names, in lower case exactly. The word is compared only with those of the same first letter.
    // The words of a letter are out of line: with all of them written out this would be too large to be inlined.
    #[inline(always)]
    pub fn of(word: &[u8]) -> Option<Word>
        ensures { result ≡ word_of word.now }
    {
        let [letter, ..] = word else {
            return None;
        };
        match *letter {
            b'a' => of_a(word),
            b'c' => of_c(word),
            b'd' => of_d(word),
            b'f' => of_f(word),
            b'g' => of_g(word),
            b'i' => of_i(word),
            b'j' => of_j(word),
            b'l' => of_l(word),
            b'm' => of_m(word),
            b'o' => of_o(word),
            b'p' => of_p(word),
            b'r' => of_r(word),
            b's' => of_s(word),
            b't' => of_t(word),
            b'u' => of_u(word),
            _ => None,
        }
    }
}
