//! Reading the lines of a text, one after the other.

ghost use Rattle.std.specs.Prelude.{◌≡◌, ◌≤◌, [], length, IfOk, IfErr, OnOk};
ghost use Rattle.prefix_lattice.specs.declared.grain.Grain.{Grain as GrainValue};
ghost use Rattle.report_text.specs.Session.{HasReadFault, IsTextSession, longest_session};
ghost use Rattle.report_text.specs.Session.{session_lines};
ghost use Rattle.report_text.specs.Stages.{FollowsStage, IsStageBeforeEnd, Stage};
ghost use Rattle.report_text.specs.LineCursor.{HasReadLines, ReadsLine, HasReadToStage};
ghost use Rattle.report_text.specs.declared.line_cursor.LineCursor.{LineCursor as CursorValue};
ghost use Rattle.report_text.specs.declared.session.Session.{Session as SessionValue};
ghost use Rattle.report_text.specs.declared.session_line.SessionLine.{SessionLine as LineValue};

use crate::line_cursor::LineCursor;
use crate::line_reading::read_line;
use crate::session_line::SessionLine;
use crate::word_cut::place_of;
use crate::{SessionFault, TextFault};
use prefix_lattice::{Grain, prefix_texts_read_back, report_order_is_total};
use std::alloc::Global;

impl<'a> LineCursor<'a> {
    /// The start of a text.
    pub(crate) fn new(text: &'a [u8]) -> LineCursor<'a>
        requires { length text.now ≤ longest_session }
        ensures text { result.text ≡ text.entry }
        ensures start { (grain : GrainValue) → HasReadLines grain result [] }
    {
        LineCursor {
            text,
            at: 0,
            lines: 0,
        }
    }

    /// Reads the next line. A prefix in it is of the grain.
    pub(crate) fn next(&mut self, alloc: Global, grain: Grain) -> Result<SessionLine, SessionFault>
        ensures read { IfOk result (ReadsLine grain self.old self.new) }
        ensures fault { IfErr result (λ fault. (stage : Stage) → IsStageBeforeEnd stage
            → HasReadToStage grain self.old stage → HasReadFault grain self.old.text.now fault) }
    {
        prefix_texts_read_back();
        report_order_is_total();
        let (_, rest) = self.text.split_at(self.at);
        let Some(len) = place_of(rest, b'\n') else {
            return Err(SessionFault::Text(TextFault::MissingEnd(self.lines + 1)));
        };
        let (text, _) = rest.split_at(len);
        let Some(line) = read_line(alloc, grain, text)? else {
            return Err(SessionFault::Text(TextFault::BadLine(self.lines + 1)));
        };
        self.at += len + 1;
        self.lines += 1;
        Ok(line)
    }

    /// Refuses the line that was read last.
    pub(crate) fn refuse(&self) -> SessionFault
        ensures { (grain : GrainValue) (old : CursorValue) (line : LineValue) (stage : Stage)
            → HasReadToStage grain old stage → ReadsLine grain old self.now line
            → ((next : Stage) → ¬ FollowsStage stage line next) → HasReadFault grain self.now.text.now result }
    {
        prefix_texts_read_back();
        report_order_is_total();
        SessionFault::Text(TextFault::BadLine(self.lines))
    }

    /// Refuses a byte after the last line of a session.
    pub(crate) fn finish(&self) -> Result<(), SessionFault>
        ensures ok { OnOk result (self.now.at ≡ length self.now.text.now) }
        ensures err { IfErr result (λ fault. (grain : GrainValue) (session : SessionValue)
            → HasReadLines grain self.now (session_lines session) → IsTextSession grain session → HasReadFault grain self.now.text.now fault) }
    {
        if self.at < self.text.len() {
            return Err(SessionFault::Text(TextFault::BadLine(self.lines + 1)));
        }
        Ok(())
    }
}
