#![tactic(auto)]

// Reads frames from standard input, a line each, and writes the answers to standard output after each read.
ghost use Rattle.std.specs.Prelude.{◌≡◌, ◌≤◌, length, IfOk};

use frames::Held;
use std::io::{self, Read, Write};

// All that is kept between two reads, and the buffers of a call.
#[derive(Drop)]
struct Session {
    held: Held,
    line: [u8; 128],
    pool: [u32; 16384],
    work: [u32; 16384],
    out: [u8; 65536],
    ghost bounded: { held.words ≤ 16384 },
}

impl Session {
    ghost use Rattle.korytanka.specs.Session.{Passes};

    // Feeds every byte that was read, once and in order, and writes each part of the output; it stops where the output takes no more.
    fn pass<W: Write>(&mut self, piece: &[u8], writer: &mut W) -> io::Result<()>
        ensures { IfOk result (λ done. Passes self.old piece.now self.new) }
    {
        let mut rest = piece;
        while !rest.is_empty() {
            let t = frames::feed(
                rest,
                self.held,
                &mut self.line,
                &mut self.pool,
                &mut self.work,
                &mut self.out,
            );
            writer.write_all(&self.out[..t.written])?;
            self.held = t.held;
            rest = &rest[t.taken..];
        }
        Ok(())
    }

    // Reads to the end of the input, or until the output takes no more.
    fn run<R: Read, W: Write>(&mut self, reader: &mut R, writer: &mut W) -> io::Result<()> {
        let mut input = [0u8; 65536];
        for _turn in 0..u64::MAX {
            let n = reader.read(&mut input).unwrap_or(0);
            if n == 0 {
                break;
            }
            self.pass(&input[..n], writer)?;
        }
        let last = frames::finish(
            self.held,
            &self.line,
            &mut self.pool,
            &mut self.work,
            &mut self.out,
        );
        writer.write_all(&self.out[..last.at])
    }
}

// The program ends well, whether or not the output took all.
fn main(rt: HostRuntime) {
    let mut session = Session {
        held: Held {
            words: 0,
            digits: 0,
        },
        line: [0; 128],
        pool: [0; 16384],
        work: [0; 16384],
        out: [0; 65536],
    };
    let _ = session.run(&mut rt.stdin(), &mut rt.stdout());
}
