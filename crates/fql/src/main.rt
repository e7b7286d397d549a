// The program: it reads the files `table`, `query` and `run` of the folder that it is started in, and writes a line for each instance of the run and one with the
// totals, or the one line of a refused call. What it writes is `report`'s output; here is only the reading and the writing.
#![tactic(auto)]

ghost use Rattle.std.specs.Prelude.{ℕ, ◌<◌, ◌≤◌, length, take, OnOk};
ghost use Rattle.std.specs.Io.KnownBytes.{Appends, Consumes, IsAtEnd};
ghost use Rattle.report.specs.Output.{output};
ghost use Rattle.fql.specs.Counts.{IsPrefixLen};

use report::output::{OUTPUT_LIMIT, write_output};
use std::fs::File;
use std::io;
use std::io::{Read, Write};
use std::rt::Files;

// The open file's bytes at the start of `buf`, as far as it has room, and how many: none where a read fails, also after others that didn't.
fn read_all<F: Read>(file: &mut F, buf: &mut [u8]) -> usize
    ensures count { IsPrefixLen result buf.new }
    ensures bytes { 0 < result → Consumes (F.remaining file.old) (F.remaining file.new) (take result buf.new) }
    ensures whole { 0 < result → result < length buf.new → IsAtEnd (F.remaining file.new) }
{
    let mut done = 0;
    while done < buf.len() {
        match file.read(&mut buf[done..]) {
            Ok(0) => return done,
            Ok(n) => done += n,
            Err(_) => return 0,
        }
    }
    done
}

// "One that can't be read counts as empty."
fn read_file(rt: &impl Files, path: &str, buf: &mut [u8]) -> usize
    ensures { IsPrefixLen result buf.new }
{
    match File::open(rt, path) {
        Ok(mut file) => read_all(&mut file, buf),
        Err(_) => 0,
    }
}

// The buffer has room for every output, and what is written is all of it.
fn print_output<'a, W: Write>(
    to: &mut W,
    out: &mut [u8],
    query: &'a [u8],
    table: &'a [u8],
    run: &'a [u8],
) -> io::Result<()>
    requires { OUTPUT_LIMIT ≤ length out.old }
    ensures { OnOk result (Appends (W.contents to.old) (W.contents to.new) (output query.now table.now run.now)) }
{
    let n = write_output(out, query, table, run);
    to.write_all(&out[..n])
}

// The buffer comes as an array, whose length is its type's: as a slice of zeros it would be counted byte by byte in the proof of its length.
fn print_whole<'a, W: Write>(
    to: &mut W,
    out: &mut [u8; OUTPUT_LIMIT],
    query: &'a [u8],
    table: &'a [u8],
    run: &'a [u8],
) -> io::Result<()>
    ensures { OnOk result (Appends (W.contents to.old) (W.contents to.new) (output query.now table.now run.now)) }
{
    print_output(to, out, query, table, run)
}

// A buffer has a byte more than its limit, so that a longer file is seen to be longer.
fn main(rt: HostRuntime) -> io::Result<()> {
    let mut table = [0u8; 8193];
    let t = read_file(&rt, "table", &mut table);
    let mut query = [0u8; 4097];
    let q = read_file(&rt, "query", &mut query);
    let mut run = [0u8; 65537];
    let r = read_file(&rt, "run", &mut run);
    let mut out = [0u8; OUTPUT_LIMIT];
    print_whole(
        &mut io::writer(&rt),
        &mut out,
        &query[..q],
        &table[..t],
        &run[..r],
    )
}
