//! A whole feed: its records are served in order, and a line is written for each.
ghost use Rattle.std.specs.Prelude.{◌≡◌, ◌<◌, ◌≤◌, length, IfOk};
ghost use Rattle.std.specs.Iterator.Adapters.{zip_first, zip_second};
ghost use Rattle.std.specs.Io.KnownBytes.{Appends};
ghost use Rattle.records.specs.Records.{records_from};
ghost use Rattle.feed.specs.Records.{unread};
ghost use Rattle.line.specs.Lines.{line_of};
ghost use Rattle.service.specs.Services.{memory_in, lent_by, room_in, SameService};
ghost use Rattle.service.specs.Feeds.{PrintsRecord, PrintsFeed};

use crate::Service;
use feed::{Record, Records, read_records};
use line::{Reply as Printed, write_line};
use std::io;
use std::io::Write;
use std::iter::Zip;
use std::ops::RangeFrom;

// Room for the longest line, that of a route with 255 legs.
const LINE: usize = 2048;

// Writes the line of the record with this number.
fn print_line<W: Write>(out: &mut W, number: usize, reply: Printed, legs: &[u16]) -> io::Result<()>
    requires { length legs.now < 256 }
    ensures { IfOk result (λ _. Appends (W.Write.contents out.old) (W.Write.contents out.new) (line_of number reply legs.now)) }
{
    let mut buffer = [0u8; LINE];
    let end = write_line(number, reply, legs, &mut buffer, 0).unwrap();
    out.write_all(&buffer[0..end])
}

// The feed's records, each with the number of its line.
fn numbered(feed: &[u8]) -> Zip<RangeFrom<usize>, Records<'_>>
    ensures first { (zip_first result).start ≡ 1 }
    ensures records { unread (zip_second result) ≡ records_from feed.now 0 }
    ensures within { length (unread (zip_second result)) ≤ length feed.now }
{
    (1..).zip(read_records(feed))
}

impl Service<'_, '_, '_, '_, '_, '_, '_> {
    // Serves one record, and writes its line: the legs that it prints are the first numbers of the reply.
    pub fn serve_record<W: Write>(
        &mut self,
        out: &mut W,
        number: usize,
        record: Record,
    ) -> io::Result<()>
        ensures printed { PrintsRecord (memory_in self.old) (lent_by self.old) number «record» self.old.k
            (W.Write.contents out.old) (W.Write.contents out.new) (memory_in self.new) (lent_by self.new) result }
        ensures same { SameService self.old self.new }
    {
        let reply = self.serve(record);
        let (printed, legs) = self.printed(reply);
        print_line(out, number, printed, legs)
    }

    // Serves the feed's records in order, and writes a line for each, up to the first that cannot be read.
    pub fn serve_feed<W: Write>(&mut self, out: &mut W, feed: &[u8]) -> io::Result<()>
        ensures printed { PrintsFeed feed.now (room_in self.old) (memory_in self.old)
            (W.Write.contents out.old) (W.Write.contents out.new) (memory_in self.new) result }
        ensures same { SameService self.old self.new }
    {
        for (number, reading) in numbered(feed) {
            match reading {
                Ok(record) => self.serve_record(out, number, record)?,
                Err(why) => return print_line(out, number, Printed::Refused(why), &[]),
            }
        }
        Ok(())
    }
}
