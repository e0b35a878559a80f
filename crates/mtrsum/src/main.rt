// mtrsum JOURNAL: writes the journal's summary to standard output, or the first refusal among its blocks and no summary. The journal is
// read twice: before anything is written it is known that no block is refused, and no more than a piece of it is held.
#![tactic(auto)]

ghost use Rattle.std.specs.Prelude.{◌≡◌, ◌≤◌, ◌/◌, [], ◌∷◌, not, eqb, min, length};
ghost use Rattle.block.specs.Block.{refusal_of};
ghost use Rattle.text.specs.Decimal.{line_of};
ghost use Rattle.mtrsum.specs.Promise.{whole_of, Judged, Sofar, Reviewed, Sent, Summed, Lined, Concluded, Summarized, Served};

use program::{Consumer, Extent, Filled, Written};
use sector::place::BLOCK;
use sector::refusal::Refusal;
use std::cmp::Ordering;
use std::fs::File;
use std::io;
use std::io::{ErrorKind, Seek, SeekFrom};
use usage::Usage;

// The summary blocks of a piece.
const OUTPUT: usize = 32 * usage::PAIR;

// The first reading, up to a refused block: what becomes of it is the first refusal among the blocks.
#[derive(Clone, Copy)]
struct Review;

// The first reading: the first refusal, and how far the file was read.
#[derive(Clone, Copy)]
struct Verdict {
    refused: Result<(), Refusal>,
    extent: Extent,
}

// A piece of the second reading that is what it was at the first: what comes after it, what was written of its summary, and what was read.
#[derive(Drop)]
struct Piece {
    usage: Usage,
    written: Written,
    filled: Filled,
}

// A piece that is not what it was: what was read, and what was written of it, which is nothing.
#[derive(Clone, Copy)]
struct Other {
    filled: Filled,
    written: Written,
}

// Why the second reading ended before its end: a piece is not what it was, or not all of its summary was written.
#[derive(Clone, Copy)]
enum Cut {
    Changed(Other),
    Unwritten(Written),
}

// The second reading: how many bytes of the file have their summary written, what comes after them, and why it ended before its end.
#[derive(Drop)]
struct Sum {
    sent: u64,
    usage: Usage,
    end: Result<(), Cut>,
}

// How the program ended: the line that was written, and what was summed, where the file was gone back to.
#[derive(Drop)]
struct Done {
    line: Written,
    sum: Option<Sum>,
}

impl Consumer for Review {
    type State = Result<(), Refusal>;

    ghost Sofar = { λ _ refused n. Sofar n (refusal_of refused) };

    ghost Taken = { λ _ _ n bytes refused. Judged bytes (n / 512) (refusal_of refused) };

    ghost wants = { λ _ _. 16384 };

    ghost is_enough = { λ _ refused. not (eqb (refusal_of refused) 0) };

    fn wanted(&self, _refused: &Result<(), Refusal>) -> usize {
        program::PIECE
    }

    // Judges the next blocks.
    #[tactic(auto, using(crate::proofs::Pieces::refused_err))]
    fn take(
        &self,
        refused: &mut Result<(), Refusal>,
        read: u64,
        _piece: Filled,
        bytes: &[u8],
    ) -> bool {
        *refused = usage::first_refusal(read / 512, bytes);
        refused.is_err()
    }
}

// Judges the file piece by piece.
fn judge(file: &mut File) -> Verdict
    ensures { Reviewed result }
{
    let mut refused = Ok(());
    let extent = program::consume(file, &Review, &mut refused);
    Verdict { refused, extent }
}

// Whether a piece is whole: no block of it is refused, and all the bytes that are wanted were read.
#[tactic(auto, using(crate::proofs::Pieces::refused_ok))]
fn is_whole(refused: Result<(), Refusal>, read: usize, want: usize) -> bool
    ensures { result ≡ whole_of (refusal_of refused) read want }
{
    refused.is_ok() && read == want
}

// How many bytes of the file are wanted next, of so many that are left: a piece, or all.
fn wanted(left: u64) -> usize
    ensures { result ≡ min 16384 left }
{
    left.min(program::PIECE as u64) as usize
}

// Says why the journal is not what it was: a read failed, or it was changed.
fn say_other<R: Eprint>(rt: &R, filled: Filled) {
    if let Some(error) = filled.error() {
        program::fail(rt, b"mtrsum: journal", error);
        return;
    }
    let _ = eprintln!(rt; "mtrsum: journal: changed while it was read");
}

// Reads the next blocks, as many bytes as the area has, runs them and writes their summary, unless they are not what they were.
// A piece whose summary is not written whole is the last.
fn sum_some<R: Print + Eprint>(
    rt: &R,
    file: &mut File,
    usage: Usage,
    input: &mut [u8],
    out: &mut [u8],
) -> Result<Piece, Cut>
    requires { (length input.old ≤ 16384) × (length out.old ≡ 32768) }
    ensures { Sent input.new usage out.new result }
{
    let filled = program::fill(file, input);
    let got = filled.count();
    let ran = usage.run(&input[..got], out).unwrap();
    if !is_whole(ran.refused, got, input.len()) {
        say_other(rt, filled);
        return Err(Cut::Changed(Other {
            filled,
            written: Written::default(),
        }));
    }
    let summary = &out[..usage::PAIR * ((got + 511) / BLOCK)];
    let piece = Piece {
        usage: ran.usage,
        written: program::write(rt, summary, b"mtrsum: standard output"),
        filled,
    };
    if !piece.written.is_done() {
        return Err(Cut::Unwritten(piece.written));
    }
    Ok(piece)
}

// Writes the summary of the first `size` bytes of the file, piece by piece, up to a write that fails or a piece that is not what it was.
// What was written by then is a front of the summary. (No `consume`: it reads as many bytes as were judged, and not to the file's end.)
fn write_summary<R: Print + Eprint>(rt: &R, file: &mut File, size: u64) -> Sum
    ensures { Summed size result }
{
    let mut input = [0u8; program::PIECE];
    let mut out = [0u8; OUTPUT];
    let mut usage = Usage::new();
    let mut left = size;
    // No `for`: what is left is what the next piece is cut from.
    while left > 0 {
        let want = wanted(left);
        let sent = size - left;
        let piece = match sum_some(rt, file, usage, &mut input[..want], &mut out) {
            Ok(piece) => piece,
            Err(cut) => {
                return Sum {
                    sent,
                    usage,
                    end: Err(cut),
                };
            }
        };
        usage = piece.usage;
        left -= want as u64;
    }
    Sum {
        sent: size,
        usage,
        end: Ok(()),
    }
}

// The line of a refusal, at the front of the area.
fn put_refusal(out: &mut [u8], refusal: u32) -> usize
    requires { 21 ≤ length out.old }
    ensures { Lined refusal out.new result }
{
    text::put_line(out, 0, &[u64::from(refusal)])
}

// Writes it.
fn tell<R: Print + Eprint>(rt: &R, refusal: u32) -> Written
    ensures { result.handed ≡ length (line_of (refusal ∷ [])) }
{
    let mut out = [0u8; 21];
    let end = put_refusal(&mut out, refusal);
    program::write(rt, &out[..end], b"mtrsum: standard output")
}

// Goes to the file's start. A pipe has none to go back to.
fn rewind(file: &mut File) -> io::Result<()> {
    if file.seek(SeekFrom::Start(0))? == 0 {
        return Ok(());
    }
    Err(io::Error::from(ErrorKind::NotSeekable))
}

// Where nothing is summed.
fn unsummed(line: Written) -> Done
    ensures { result ≡ record { line = line; sum = None } }
{
    Done { line, sum: None }
}

// After the first reading: the refusal's line, or the summary. A file of which nothing can be read is a bad argument; a read that fails
// further on is said.
fn conclude<R: Print + Eprint>(rt: &R, file: &mut File, verdict: Verdict) -> Done
    ensures { Concluded verdict result }
{
    if let Err(refusal) = verdict.refused {
        return unsummed(tell(rt, refusal.into()));
    }
    if let Some(error) = verdict.extent.error() {
        let line = program::break_off(
            rt,
            verdict.extent,
            error,
            b"mtrsum: journal",
            b"mtrsum: standard output",
        );
        return unsummed(line);
    }
    if let Err(error) = rewind(file) {
        program::fail(rt, b"mtrsum: journal", error);
        return unsummed(Written::default());
    }
    Done {
        line: Written::default(),
        sum: Some(write_summary(rt, file, verdict.extent.count())),
    }
}

// Reads the file twice, where that can be done. One that has no start to go back to is a bad argument.
fn summarize<R: Print + Eprint>(rt: &R, file: &mut File, rewound: bool) -> Done
    ensures { Summarized rewound result }
{
    if rewound {
        let verdict = judge(file);
        return conclude(rt, file, verdict);
    }
    unsummed(program::refuse(rt, b"mtrsum: standard output"))
}

// Serves the journal that was opened.
fn serve<R: Print + Eprint>(rt: &R, opened: Option<File>) -> Done
    ensures { Served opened result }
{
    let Some(mut file) = opened else {
        return unsummed(program::refuse(rt, b"mtrsum: standard output"));
    };
    let rewound = rewind(&mut file).is_ok();
    summarize(rt, &mut file, rewound)
}

fn main(rt: HostRuntime) {
    if program::compare_arguments(&rt, 1) == Ordering::Equal {
        serve(&rt, program::open(&rt, 1));
        return;
    }
    program::refuse(&rt, b"mtrsum: standard output");
}
