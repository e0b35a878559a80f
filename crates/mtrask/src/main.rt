// mtrask SUMMARY (THREAD BLOCK BLOCK)..: the ticks charged to a thread between the starts of two journal blocks, from the summary of the
// journal, for 1 to 64 questions. Each block of the summary is read once.
#![tactic(auto)]

ghost use Rattle.std.specs.Prelude.{◌≡◌, [], ◌∷◌, ◌+◌, ◌*◌, ◌≤◌, false, length, take};
ghost use Rattle.text.specs.Decimal.{lines_of};
ghost use Rattle.text.specs.Inner.{Wrote};
ghost use Rattle.mtrask.specs.Promise.{question_count, questions_of, Said, Parsed, numbers_of, answer_text, asked_in};
ghost use Rattle.mtrask.specs.Promise.{Judged, Passed, Looked, Handed, Answered, Served, Ran};

use program::{Consumer, Extent, Filled, Written};
use questions::Questions;
use std::fs::File;
use std::rt::{Env, Files};
use summary::questions::{Answer, Pass, Question};

mod questions;

// The bytes of 64 lines of two numbers, each of at most 20 digits with a byte after it.
const ROOM: usize = 2688;

const NONE: Question = Question {
    thread: 0,
    first: 0,
    second: 0,
};

// What the pass ended with: how many bytes the lines of the answers have in the text, and how far the summary was read.
#[derive(Clone, Copy)]
struct Outcome {
    used: usize,
    extent: Extent,
}

// How many questions so many arguments ask, the program's own name among them: three numbers each after the file's name.
fn question_count(all: usize) -> Option<usize>
    ensures { result ≡ question_count all }
{
    if all < 5 {
        return None;
    }
    if all > 194 {
        return None;
    }
    let rest = all - 2;
    if rest % 3 == 0 { Some(rest / 3) } else { None }
}

// What so many arguments after the file's name spell.
fn numbers_said<R: Env>(rt: &R, count: usize) -> Option<[u64; 192]>
    requires { count ≤ 192 }
    ensures { Said count result }
{
    let mut values = [0u64; 192];
    for i in 0..count {
        values[i] = program::number(rt, 2 + i)?;
    }
    Some(values)
}

// The first questions that the numbers make, three by three.
fn questions_from(values: [u64; 192], count: usize) -> [Question; 64]
    requires { count ≤ 64 }
    ensures { take count result ≡ questions_of (take (3 * count) values) }
{
    let mut questions = [NONE; 64];
    for i in 0..count {
        let at = 3 * i;
        questions[i] = Question {
            thread: values[at],
            first: values[at + 1],
            second: values[at + 2],
        };
    }
    questions
}

// The questions.
fn parse<R: Env>(rt: &R) -> Option<Questions>
    ensures { Parsed result }
{
    let count = question_count(program::argument_count(rt))?;
    let values = numbers_said(rt, 3 * count)?;
    Some(Questions {
        all: questions_from(values, count),
        count,
    })
}

impl Consumer for Questions {
    type State = Pass;

    ghost Sofar = { λ q pass n. Passed (asked_in q) n pass };

    ghost Taken = { λ q p _ bytes r. Judged bytes (asked_in q) p r };

    ghost wants = { λ _ _. 16384 };

    ghost is_enough = { λ _ _. false };

    fn wanted(&self, _pass: &Pass) -> usize {
        program::PIECE
    }

    // Passes over the next blocks.
    fn take(&self, pass: &mut Pass, _read: u64, _piece: Filled, bytes: &[u8]) -> bool {
        *pass = pass.run(&self.all[..self.count], bytes);
        false
    }
}

// The line of an answer: 0 and the ticks, or the refusal.
fn put_answer(out: &mut [u8], at: usize, a: Answer) -> usize
    requires { at + 42 ≤ length out.old }
    ensures { Wrote out.old at (lines_of (numbers_of a ∷ [])) 42 out.new result }
{
    match a {
        Ok(ticks) => text::put_line(out, at, &[0, ticks]),
        Err(why) => text::put_line(out, at, &[u64::from(u32::from(why))]),
    }
}

// The lines of the answers, at the front of the area.
fn put_answers(out: &mut [u8], answers: &[Answer]) -> usize
    requires { (length answers.now ≤ 64) × (length out.old ≡ 2688) }
    ensures { Wrote out.old 0 (answer_text answers.now) 2688 out.new result }
{
    let mut used: usize = 0;
    for a in answers {
        used = put_answer(out, used, *a);
    }
    used
}

// The lines of the answers from the file, at the front of the area.
fn look(file: &mut File, questions: &Questions, out: &mut [u8]) -> Outcome
    requires { length out.old ≡ 2688 }
    ensures { Looked (asked_in questions.now) out.new result }
{
    let mut pass = Pass::new();
    let extent = program::consume(file, questions, &mut pass);
    let table = pass.answers(&questions.all[..questions.count]);
    let used = put_answers(out, &table[..questions.count]);
    Outcome { used, extent }
}

// Writes the answers. A file of which nothing can be read is a bad argument; a read that fails further on is said.
fn tell<R: Print + Eprint>(rt: &R, file: &mut File, questions: &Questions) -> Written
    ensures { Handed questions.now result.handed }
{
    let mut out = [0u8; ROOM];
    let outcome = look(file, questions, &mut out);
    if let Some(error) = outcome.extent.error() {
        return program::break_off(
            rt,
            outcome.extent,
            error,
            b"mtrask: summary",
            b"mtrask: standard output",
        );
    }
    program::write(rt, &out[..outcome.used], b"mtrask: standard output")
}

// Answers the questions from the summary that was opened.
fn answer_for<R: Print + Eprint>(rt: &R, questions: &Questions, opened: Option<File>) -> Written
    ensures { Answered questions.now opened result.handed }
{
    let Some(mut file) = opened else {
        return program::refuse(rt, b"mtrask: standard output");
    };
    tell(rt, &mut file, questions)
}

// Answers what the arguments ask, from the summary that the first one names.
fn serve<R: Env + Files<File = File> + Print + Eprint>(rt: &R, asked: Option<Questions>) -> Written
    ensures { Served asked result.handed }
{
    let Some(questions) = asked else {
        return program::refuse(rt, b"mtrask: standard output");
    };
    answer_for(rt, &questions, program::open(rt, 1))
}

// The program.
fn run<R: Env + Files<File = File> + Print + Eprint>(rt: &R) -> Written
    ensures { Ran result.handed }
{
    serve(rt, parse(rt))
}

fn main(rt: HostRuntime) {
    run(&rt);
}
