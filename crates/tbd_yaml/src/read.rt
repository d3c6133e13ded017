//! Reading a text.

ghost use Rattle.std.specs.Prelude.{◌≡◌, ◌+◌, ◌^◌, ◌<◌, ◌≤◌, ◌∷◌, length, take, drop};
ghost use Rattle.mo_types.specs.Gives.{Gives};
ghost use Rattle.tbd_yaml.specs.File.{file_of};
ghost use Rattle.yaml_text.specs.FaultText.{IsYamlFault};
ghost use Rattle.yaml_text.specs.Lines as lines;

use crate::reading::{ends, finished, new_reading, with_next};
use memchr::memchr;
use mo_types::Bytes;
use std::alloc::Global;
use yaml_text::{YamlFault, YamlFile};

/// The first line of a text: how many bytes it has, and how many the text's rest begins behind.
#[derive(Clone, Copy, Debug)]
struct Cut {
    size: usize,
    taken: usize,
}

#[tactic(auto, using(crate::proofs::ReadLemmas::returns), unfolding(yaml_text::specs::Lines::without_return))]
fn without_return(line: &[u8]) -> usize
    ensures exact { take result line.now ≡ lines.without_return line.now }
    ensures within { result ≤ length line.now }
{
    let size = line.len();
    if size > 0 && line[size - 1] == b'\r' {
        size - 1
    } else {
        size
    }
}

#[tactic(auto, using(crate::proofs::ReadLemmas::cuts))]
fn cut_line(text: &[u8]) -> Cut
    requires { 0 < length text.now }
    ensures exact { take result.size text.now ∷ lines.lines_of (drop result.taken text.now) ≡ lines.lines_of text.now }
    ensures some { 1 ≤ result.taken }
    ensures size { result.size ≤ result.taken }
    ensures within { result.taken ≤ length text.now }
{
    match memchr(b'\n', text) {
        Some(end) => Cut {
            size: without_return(&text[..end]),
            taken: end + 1,
        },
        None => Cut {
            size: without_return(text),
            taken: text.len(),
        },
    }
}

/// Reads the text of a stub library. Its scalars are parts of the file where they stand there as they are.
#[tactic(auto, using(crate::proofs::ReadLemmas::reads))]
pub fn read_yaml(alloc: Global, file: &Bytes) -> Result<YamlFile, YamlFault>
    requires { length file.now < 2 ^ 32 }
    ensures { Gives IsYamlFault result (file_of file.now) }
{
    let mut reading = new_reading(alloc);
    let mut at = 0;
    let mut lines = 0;
    while at < file.len() {
        let cut = cut_line(&file.as_slice()[at..]);
        let line = file.part(at, cut.size)?;
        lines += 1;
        if ends(line.as_slice(), &reading) {
            return finished(lines, reading);
        }
        reading = with_next(alloc, lines, &line, reading)?;
        at += cut.taken;
    }
    finished(lines, reading)
}
