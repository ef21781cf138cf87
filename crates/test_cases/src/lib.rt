//! Test cases as texts that people read, compared and counted. A program `test_x` names its case files in `args`, and
//! its `stdout` holds only a line a file, as `productions.txt 53`; for a case that fails it would also have
//! `productions.txt:41: want 12 unexpected, got ok`. One file, `canary.txt`, holds a wrong case, whose line is in `stdout`.
//!
//! A file of texts has a text and beneath it what must come: `ok`, a caret under the refused byte and a word, a caret
//! with the byte's number (`^12 unexpected`), or `> ` and other words. A text's lines are joined by newlines.
//!
//! ```text
//! # module = "module" name head ";" { item } "endmodule"
//! module m; endmodule
//! ok
//! module m(a); inout a; endmodule
//!              ^ out of profile
//! ```
//!
//! A file of sections has cases that begin with a title; what stands before the first title holds for all.
//!
//! ```text
//! = select unknown, data equal
//! repair --record r.vcd --scope tb.dut --top mux --vcd o.vcd --code o.v --cert o.xc m.v
//! fail shelf 7
//! < m.v
//! module mux(d0, d1, s, y); ..
//! > status 4
//! > printed
//! refused: cannot read r.vcd
//! ```
//!
//! In both a line `repeat 1000 {` stands for a line of 1,000 braces, `number 1000 #` for the lines `#1` to `#1000`, and
//! `bytes 127 9` for a line of these two bytes.
//!
//! ```text
//! fn main(rt: HostRuntime) -> io::Result<()> {
//!     for name in env::args(&rt)?.skip(1) {
//!         let text = fs::read(&rt, name.as_str())?;
//!         let mut report = Report::new(rt.alloc(), name.as_str())?;
//!         for case in text_cases(text.as_slice()) {
//!             let case = case.read(rt.alloc())?;
//!             let got = answer_to(rt.alloc(), case.input.as_slice())?;
//!             report.compare(case.line, case.want.as_slice(), got.as_str().as_bytes())?;
//!             report.end_case();
//!         }
//!         rt.print(report)?;
//!     }
//!     Ok(())
//! }
//!
//! for section in section_cases(text.as_slice()) {
//!     for part in shared(text.as_slice()).parts().chain(section.parts()) {
//!         match part.kind {
//!             PartKind::Words => .., // part.head is `repair --record ..`
//!             PartKind::File => ..,  // part.head is `m.v`, part.content(alloc)? its bytes
//!             PartKind::Want => report.compare_content(part, got)?,
//!         }
//!     }
//!     report.end_case();
//! }
//! ```
#![tactic(auto)]

mod content;
mod line;
mod report;
mod sections;
mod texts;

pub use line::{Line, Lines};
pub use report::Report;
pub use sections::{Part, PartKind, Parts, Section, Sections, section_cases, shared};
pub use texts::{Text, TextCase, TextCases, text_cases};
