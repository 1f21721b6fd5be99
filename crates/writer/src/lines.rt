ghost use Rattle.std.specs.Prelude.{◌≡◌, ◌≤◌, map, length};
ghost use Rattle.acl.specs.Shapes.{shape, side_shape};
ghost use Rattle.ios.specs.declared.family.Family.TheVariants.{Extended};
ghost use Rattle.ios.specs.Reading.{over};
ghost use Rattle.writer.specs.Canon.{network_words, port_words, log_words, line_bytes, list_bytes};
ghost use Rattle.writer.specs.Pens.{counted, Wrote, WroteWords, term_words};

use crate::pen::Pen;
use crate::token::Address;
use acl::line::Line;
use acl::side::Side;
use acl::terms::PortTest;
use ios::family::{Family, ListNumber};

#[tactic(auto, using(crate::proofs::Overs::none))]
impl Pen<'_> {
    // The addresses of a side: `any`, `host A` or `A W`.
    fn network(&mut self, side: Side)
        ensures { WroteWords self.old (network_words (side_shape side)) self.new }
    {
        let address = Address(side.address);
        match side.wildcard {
            0xffff_ffff => self.word("any"),
            0 => self.pair("host", address),
            wildcard => self.pair(address, Address(wildcard)),
        }
    }

    fn ports(&mut self, ports: PortTest)
        ensures { WroteWords self.old (port_words ports) self.new }
    {
        match ports {
            PortTest::Any => {}
            PortTest::Eq(n) => self.pair("eq", n),
            PortTest::Neq(n) => self.pair("neq", n),
            PortTest::Lt(n) => self.pair("lt", n),
            PortTest::Gt(n) => self.pair("gt", n),
            PortTest::Range(a, b) => {
                self.pair("range", a);
                self.word(b);
            }
        }
    }

    fn log(&mut self, log: bool)
        ensures { WroteWords self.old (log_words log) self.new }
    {
        if log {
            self.word("log");
        }
    }

    // Protocol, sides and port tests of an extended line.
    fn extended(&mut self, line: Line)
        ensures { WroteWords self.old (term_words Extended (shape line)) self.new }
    {
        self.word(line.protocol);
        self.network(line.source);
        self.ports(line.source.ports);
        self.network(line.destination);
        self.ports(line.destination.ports);
    }

    // What stands between a line's action and its `log`.
    fn terms(&mut self, family: Family, line: Line)
        ensures { WroteWords self.old (term_words family (shape line)) self.new }
    {
        match family {
            Family::Standard => self.network(line.source),
            Family::Extended => self.extended(line),
        }
    }

    // A line of the list, with its end.
    fn line(&mut self, list: ListNumber, line: Line)
        ensures { Wrote self.old (line_bytes list.number list.family (shape line)) self.new }
    {
        self.text("access-list");
        self.word(list.number);
        self.word(line.action);
        self.terms(list.family, line);
        self.log(line.log);
        self.text("\n");
    }
}

// All lines, from the front of memory on; the length of their text.
pub(crate) fn put_list(memory: &mut [u8], list: ListNumber, lines: &[Line]) -> usize
    ensures counted { counted result ≡ counted (length (list_bytes list.number list.family (map shape lines.now))) }
    ensures written { length (list_bytes list.number list.family (map shape lines.now)) ≤ length memory.old
        → memory.new ≡ over (list_bytes list.number list.family (map shape lines.now)) memory.old }
{
    let mut pen = Pen { memory, at: 0 };
    for line in lines {
        pen.line(list, *line);
    }
    pen.at
}
