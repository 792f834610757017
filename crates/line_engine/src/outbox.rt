//! Replies that are not written yet.

ghost use Rattle.std.specs.Prelude.{◌≡◌, ◌+◌, ◌<◌, ◌++◌, [], if◌then◌else◌, nat_le, length, OnOk, OnErr, IfOk, IfErr, string_bytes};
ghost use Rattle.std.specs.Io.KnownBytes.{Appends};
ghost use Rattle.board_lines.specs.Replies.{ended, line_fault_text};
ghost use Rattle.line_engine.specs.Marks.{mark_text, mark_has_reply, mark_is_refusal};
ghost use Rattle.line_engine.specs.Running.{AppendsPrefix, Reaches, MayBeWrite};

use crate::mark::Mark;
use crate::run_fault::RunFault;
use crate::tally::Tally;
use crate::write::write_whole;
use board_lines::LineFault;
use limits::MOST_LINES;
use std::alloc::{AllocError, Global};
use std::io::Write;

/// From this many bytes on replies are written before more lines are answered.
const FULL_BYTES: usize = 65_536;

/// How long most replies are.
const REPLY_BYTES: usize = 64;

/// The replies that are not written yet, and the counts of all.
#[derive(Drop)]
pub(crate) struct Outbox {
    pub(crate) held: Vec<u8>,
    pub(crate) tally: Tally,
    /// The reply to one line. Its memory is reused for the next.
    pub(crate) text: String,
}

/// The reply to a bad line.
#[inline(always)]
fn bad_text(fault: LineFault) -> &'static [u8]
    ensures { result.now ≡ ended (line_fault_text fault) }
{
    match fault {
        LineFault::Number => b"bad number\n".as_slice(),
        LineFault::Word => b"bad word\n".as_slice(),
        LineFault::Count => b"bad count\n".as_slice(),
        LineFault::Name => b"bad name\n".as_slice(),
        LineFault::Op => b"bad op\n".as_slice(),
        LineFault::Object => b"bad object\n".as_slice(),
    }
}

impl Outbox {
    pub(crate) fn new(alloc: Global) -> Result<Outbox, AllocError>
        ensures held { IfOk result (λ outbox. outbox.held.items ≡ []) }
        ensures seen { IfOk result (λ outbox. outbox.tally.seen ≡ 0) }
        ensures lines { IfOk result (λ outbox. outbox.tally.lines ≡ 0) }
        ensures refused { IfOk result (λ outbox. outbox.tally.refused ≡ 0) }
    {
        Ok(Outbox {
            held: Vec::with_capacity(alloc, FULL_BYTES)?,
            tally: Tally::new(),
            text: String::with_capacity(alloc, REPLY_BYTES)?,
        })
    }

    /// Whether the replies are to be written now.
    pub(crate) fn is_full(&self) -> bool
        ensures { result ≡ nat_le 65536 (length self.now.held.items) }
    {
        self.held.len() >= FULL_BYTES
    }

    /// Appends the text of a line's answer to the replies that are held, and counts it. Running out of memory changes neither.
    // Each short reply has an arm of its own, since the copy of a text of a known length takes a few instructions.
    #[inline(always)]
    pub(crate) fn put(&mut self, mark: Mark) -> Result<(), AllocError>
        requires { self.old.tally.seen < MOST_LINES }
        ensures text { OnOk result (self.new.held.items ≡ self.old.held.items ++ mark_text mark (string_bytes self.old.text)) }
        ensures seen { OnOk result (self.new.tally.seen ≡ self.old.tally.seen + 1) }
        ensures lines { OnOk result (self.new.tally.lines ≡ self.old.tally.lines + (if mark_has_reply mark then 1 else 0)) }
        ensures refused { OnOk result (self.new.tally.refused ≡ self.old.tally.refused + (if mark_is_refusal mark then 1 else 0)) }
        ensures err { OnErr result (self.new.held.items ≡ self.old.held.items) }
    {
        match mark {
            Mark::Nothing => self.tally.count(false, false),
            Mark::Text(is_refusal) => {
                self.held.extend_from_slice(self.text.as_bytes())?;
                self.tally.count(true, is_refusal);
            }
            Mark::Done => {
                self.held.extend_from_slice(b"done\n")?;
                self.tally.count(true, false);
            }
            Mark::Checked(true) => {
                self.held.extend_from_slice(b"yes\n")?;
                self.tally.count(true, false);
            }
            Mark::Checked(false) => {
                self.held.extend_from_slice(b"no\n")?;
                self.tally.count(true, false);
            }
            Mark::NoSession => {
                self.held.extend_from_slice(b"denied no-session\n")?;
                self.tally.count(true, true);
            }
            Mark::Bad(LineFault::Word) => {
                self.held.extend_from_slice(b"bad word\n")?;
                self.tally.count(true, true);
            }
            Mark::Bad(fault) => {
                self.held.extend_from_slice(bad_text(fault))?;
                self.tally.count(true, true);
            }
        }
        Ok(())
    }

    /// Writes the replies that are held.
    pub(crate) fn hand_on<W: Write>(&mut self, writer: &mut W) -> Result<(), RunFault>
        ensures ok { OnOk result (Appends (W.contents writer.old) (W.contents writer.new) self.old.held.items) }
        ensures none { OnOk result (self.new.held.items ≡ []) }
        ensures err { OnErr result (AppendsPrefix (W.contents writer.old) (W.contents writer.new) self.old.held.items) }
        ensures kind { IfErr result (λ e. e ≡ RunFault.Write) }
        ensures tally { self.new.tally ≡ self.old.tally }
    {
        write_whole(writer, self.held.as_slice())?;
        self.held.clear();
        Ok(())
    }

    /// Writes the replies that are held, and flushes the writer.
    pub(crate) fn flush<W: Write>(&mut self, writer: &mut W) -> Result<(), RunFault>
        ensures ok { OnOk result (Appends (W.contents writer.old) (W.contents writer.new) self.old.held.items) }
        ensures none { OnOk result (self.new.held.items ≡ []) }
        ensures err { OnErr result (AppendsPrefix (W.contents writer.old) (W.contents writer.new) self.old.held.items) }
        ensures kind { IfErr result (λ e. e ≡ RunFault.Write) }
        ensures tally { self.new.tally ≡ self.old.tally }
    {
        self.hand_on(writer)?;
        match writer.flush() {
            Ok(()) => Ok(()),
            Err(_) => Err(RunFault::Write),
        }
    }

    /// Writes what is held as a run ends with a fault: the fault of the run is then that one, or that of the writer.
    pub(crate) fn close<W: Write>(&mut self, writer: &mut W, fault: RunFault) -> RunFault
        ensures bytes { Reaches result (W.contents writer.old) (W.contents writer.new) self.old.held.items }
        ensures fault { MayBeWrite fault result }
    {
        match self.hand_on(writer) {
            Ok(()) => fault,
            Err(failed) => failed,
        }
    }
}
