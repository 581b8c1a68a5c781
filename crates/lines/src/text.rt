// A line as far as it is put together: texts, numbers in decimal, and routes are pushed to its end.
//
// No part is printed by `write!`: a `Display` promises its bytes only where its answer is `Ok`, and a line that fits has to be written.
ghost use Rattle.std.specs.Prelude.{◌≡◌, [], ◌∷◌, ◌++◌, ◌+◌, ◌≤◌, ◌<◌, length};
ghost use Rattle.route.specs.Shown.{route_of};
ghost use Rattle.lines.specs.Texts.{decimal, dotted_quad, prefix_text, route_text};

use crate::MAX_LINE;
use arrayvec::ArrayString;
use itoa::Buffer;
use route::{Prefix, Route};

// A line as far as it is put together.
#[derive(Drop)]
pub(crate) struct Line {
    text: ArrayString<MAX_LINE>,
}

impl Line {
    // An empty line.
    pub(crate) fn new() -> Line
        ensures { result.text.bytes ≡ [] }
    {
        Line {
            text: ArrayString::new(),
        }
    }

    // The line's text.
    pub(crate) fn as_str(&self) -> &str
        ensures { result.now ≡ self.now.text.bytes }
    {
        self.text.as_str()
    }

    // A text.
    pub(crate) fn push_str(&mut self, s: &str)
        requires { length self.old.text.bytes + length s.now ≤ MAX_LINE }
        ensures text { self.new.text.bytes ≡ self.old.text.bytes ++ s.now }
        ensures len { length self.new.text.bytes ≡ length self.old.text.bytes + length s.now }
    {
        self.text.push_str(s);
    }

    // A number in decimal.
    pub(crate) fn push_decimal(&mut self, n: u64)
        requires { length self.old.text.bytes + 20 ≤ MAX_LINE }
        ensures text { self.new.text.bytes ≡ self.old.text.bytes ++ decimal n }
        ensures len { length self.new.text.bytes ≤ length self.old.text.bytes + 20 }
    {
        let mut digits = Buffer::new();
        self.text.push_str(digits.format(n));
    }

    // A number behind a character.
    pub(crate) fn push_behind(&mut self, c: char, n: u64)
        requires ascii { c < 128 }
        requires room { length self.old.text.bytes + 21 ≤ MAX_LINE }
        ensures text { self.new.text.bytes ≡ self.old.text.bytes ++ (c ∷ decimal n) }
        ensures len { length self.new.text.bytes ≤ length self.old.text.bytes + 21 }
    {
        self.text.push(c);
        self.push_decimal(n);
    }

    // An address as a dotted quad.
    fn push_quad(&mut self, address: u32)
        requires { length self.old.text.bytes + 83 ≤ MAX_LINE }
        ensures text { self.new.text.bytes ≡ self.old.text.bytes ++ dotted_quad address }
        ensures len { length self.new.text.bytes ≤ length self.old.text.bytes + 83 }
    {
        let [a, b, c, d] = address.to_be_bytes();
        self.push_decimal(a as u64);
        self.push_behind('.', b as u64);
        self.push_behind('.', c as u64);
        self.push_behind('.', d as u64);
    }

    // A prefix: its address, and its length behind a slash.
    fn push_prefix(&mut self, p: Prefix)
        requires { length self.old.text.bytes + 104 ≤ MAX_LINE }
        ensures text { self.new.text.bytes ≡ self.old.text.bytes ++ prefix_text p.address p.length.0 }
        ensures len { length self.new.text.bytes ≤ length self.old.text.bytes + 104 }
    {
        self.push_quad(p.address);
        self.push_behind('/', p.length.0 as u64);
    }

    // A prefix and its hop.
    pub(crate) fn push_route(&mut self, r: Route)
        requires { length self.old.text.bytes + 125 ≤ MAX_LINE }
        ensures text { self.new.text.bytes ≡ self.old.text.bytes ++ route_text (route_of r) }
        ensures len { length self.new.text.bytes ≤ length self.old.text.bytes + 125 }
    {
        self.push_prefix(r.prefix);
        self.push_behind(' ', r.hop.0 as u64);
    }
}
