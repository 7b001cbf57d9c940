ghost use Rattle.std.specs.Prelude.{◌≡◌, false};
ghost use Rattle.sokopar.specs.Report.{Report as View, after_line, written_of};
ghost use Rattle.sokopar.specs.inside.Sending.{Sends};

use crate::fault::RunFault;
use crate::sink::Sink;
use crate::writes::write_whole;
use judging::Text;
use std::marker::Model;

/// A whole report: its text and its status.
#[derive(Drop)]
pub(crate) struct Report {
    text: Text,
    status: u8,
}

impl Model for Report {
    ghost use Rattle.sokopar.specs.Report.{Report as View};

    ghost Value = { View };

    ghost view = { λ a. record { text = a.text; status = a.status } };
}

impl Report {
    /// The report of this text and this status.
    pub(crate) fn new(text: Text, status: u8) -> Report
        ensures { result ≡ record { text = text; status = status } }
    {
        Report { text, status }
    }

    /// Writes the report, and returns its status.
    pub(crate) fn send<K: Sink>(&self, sink: &mut K) -> Result<u8, RunFault>
        ensures { Sends (written_of false self.now) self.now.status (K.seen sink.old) (K.seen sink.new) result }
    {
        send_text(self.text.as_slice(), self.status, sink)
    }

    /// Writes the report, with `lurd` without its first line, and returns its status.
    pub(crate) fn send_as<K: Sink>(&self, lurd: bool, sink: &mut K) -> Result<u8, RunFault>
        ensures { Sends (written_of lurd self.now) self.now.status (K.seen sink.old) (K.seen sink.new) result }
    {
        if lurd {
            send_text(after_line(self.text.as_slice()), self.status, sink)
        } else {
            self.send(sink)
        }
    }
}

/// The bytes after the first line of a text.
fn after_line(text: &[u8]) -> &[u8]
    ensures { result.now ≡ after_line text.now }
{
    let mut rest = text;
    while let [byte, others @ ..] = rest {
        if *byte == b'\n' {
            return others;
        }
        rest = others;
    }
    rest
}

/// Writes the text of a report, and returns its status.
fn send_text<K: Sink>(text: &[u8], status: u8, sink: &mut K) -> Result<u8, RunFault>
    ensures { Sends text.now status (K.seen sink.old) (K.seen sink.new) result }
{
    match write_whole(sink, text) {
        Ok(()) => Ok(status),
        Err(_) => Err(RunFault::Write),
    }
}
