//! What answers commands.

ghost use Rattle.std.specs.Prelude.{◌≡◌, ◌≢◌, ◌++◌, List, IfOk, IfErr, OnOk, string_bytes};
ghost use Rattle.board_rules.specs.declared.call.Entry.{Entry};
ghost use Rattle.board_rules.specs.Step.{reply_by};
ghost use Rattle.board_lines.specs.Listings.{audit_text};
ghost use Rattle.board_lines.specs.declared.command.Command.{Command};
ghost use Rattle.line_engine.specs.Answers.{Answer, Replied, Listed, Audited, Reviewed, Checked};
ghost use Rattle.line_engine.specs.Fronts.{MayFault, MayRefuse};

use board_rules::{AskFault, Call, Denial, Fault, Reply, Review, Row};
use move_core::Move;
use rbac_core::{Object, Operation};
use separation_core::Name;

/// What answers calls and questions, with a runtime of type R.
pub trait Front<R> {
    // What answers depend on, and what a contract sees of a front.
    ghost State: { Type 0 };

    ghost seen: { Self → State };

    // What must hold of a front that is asked. It keeps holding.
    ghost ready: { Self → Type 0 };

    // From the first state the command may have this answer, which leaves the second.
    ghost step: { State → Command → Answer → State → Type 0 };

    // From the first state memory may run out at the command, which leaves the second.
    ghost refuses: { State → Command → State → Type 0 };

    /// Submits a call, and gives the reply.
    fn submit(&mut self, rt: &R, call: Call) -> Result<Reply, Fault>
        requires { ready self.old }
        ensures ready { ready self.new }
        ensures ok { IfOk result (λ reply. step (seen self.old) (Command.Submit call) (Replied reply) (seen self.new)) }
        ensures err { IfErr result (λ fault. MayFault step refuses (seen self.old) call fault (seen self.new)) };

    /// Submits a proposal: the version that it commits, or why it is denied. It does what `submit` does; a verdict is shorter than a reply,
    /// which has room for a name.
    fn propose(
        &mut self,
        rt: &R,
        session: u32,
        base: u32,
        mv: Move,
    ) -> Result<Result<u32, Denial>, Fault>
        requires { ready self.old }
        ensures ready { ready self.new }
        ensures ok { IfOk result (λ verdict. step (seen self.old) (Command.Submit (Call.Propose session base mv))
            (Replied (reply_by verdict)) (seen self.new)) }
        ensures err { IfErr result (λ fault. MayFault step refuses (seen self.old) (Call.Propose session base mv) fault (seen self.new)) };

    /// The rows that the session may view.
    fn list(&mut self, rt: &R, session: u32) -> Result<Vec<Row>, AskFault>
        requires { ready self.old }
        ensures ready { ready self.new }
        ensures ok { IfOk result (λ rows. step (seen self.old) (Command.List session) (Listed rows.items) (seen self.new)) }
        ensures err { IfErr result (λ fault. MayRefuse step refuses (seen self.old) (Command.List session) fault (seen self.new)) };

    /// Appends the text of the journal, where the session may audit the board. The journal may be long, so no entry is returned. After a
    /// refusal the text is as it was; where memory ran out, part of the journal's text may have been appended.
    fn audit(&mut self, rt: &R, session: u32, text: &mut String) -> Result<(), AskFault>
        requires { ready self.old }
        ensures ready { ready self.new }
        ensures ok { OnOk result ((entries : List Entry) × step (seen self.old) (Command.Audit session) (Audited entries) (seen self.new)
            × (string_bytes text.new ≡ string_bytes text.old ++ audit_text entries)) }
        ensures err { IfErr result (λ fault. MayRefuse step refuses (seen self.old) (Command.Audit session) fault (seen self.new)) }
        ensures kept { IfErr result (λ fault. fault ≢ AskFault.NoMemory → string_bytes text.new ≡ string_bytes text.old) };

    /// The names of a part of the policy, where the session may audit the board.
    fn review(&mut self, rt: &R, session: u32, which: Review) -> Result<Vec<Name>, AskFault>
        requires { ready self.old }
        ensures ready { ready self.new }
        ensures ok { IfOk result (λ names. step (seen self.old) (Command.Review session which) (Reviewed names.items) (seen self.new)) }
        ensures err { IfErr result (λ fault. MayRefuse step refuses (seen self.old) (Command.Review session which) fault (seen self.new)) };

    /// Whether the session may do the operation to the object.
    fn check(&mut self, rt: &R, session: u32, operation: Operation, object: Object) -> bool
        requires { ready self.old }
        ensures ready { ready self.new }
        ensures answer { step (seen self.old) (Command.Check session operation object) (Checked result) (seen self.new) };
}
