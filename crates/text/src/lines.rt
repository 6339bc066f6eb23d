// The lines of the program's output.
ghost use Rattle.std.specs.Prelude.{Ok};
ghost use Rattle.text.specs.Text.{sizes_line, file_refused_line, refused_line};
ghost use Rattle.text.specs.Inner.{Said, Answered};
ghost use Rattle.byte_lists.specs.Lines.{Made};

use acts::Answer;
use byte_lists::line::Line;
use refusals::Refusal;

// With `u64::from` in place of the casts two of these goals stay open.
fn said(line: Line, a: Answer) -> Line
    ensures { Said line result (Ok a) }
{
    match a {
        Answer::Begun => line.word(b"begun"),
        Answer::Going => line.word(b"going"),
        Answer::Read(v, b, n) => line
            .word(b"read ")
            .number(v as u64)
            .word(b" ")
            .number(b as u64)
            .word(b" ")
            .number(n as u64),
        Answer::Written(n) => line.word(b"written ").number(n as u64),
        Answer::Asked(b, n) => line
            .word(b"asked ")
            .number(b as u64)
            .word(b" ")
            .number(n as u64),
    }
}

fn told(line: Line, a: Result<Answer, Refusal>) -> Line
    ensures { Said line result a }
{
    match a {
        Ok(answer) => said(line, answer),
        Err(r) => line.word(b"refused ").number(refusals::number(r) as u64),
    }
}

pub fn answer(k: usize, a: Result<Answer, Refusal>) -> Line
    ensures { Answered k a result }
{
    told(Line::new().number(k as u64).word(b" "), a).word(b"\n")
}

pub fn sizes(p: u32, m: u32) -> Line
    ensures { Made result (sizes_line p m) }
{
    Line::new()
        .word(b"processes ")
        .number(p as u64)
        .word(b" cells ")
        .number(m as u64)
        .word(b"\n")
}

pub fn refused(r: Refusal) -> Line
    ensures { Made result (refused_line r) }
{
    Line::new()
        .word(b"refused ")
        .number(refusals::number(r) as u64)
        .word(b"\n")
}

pub fn file_refused(r: Refusal) -> Line
    ensures { Made result (file_refused_line r) }
{
    Line::new()
        .word(b"file refused ")
        .number(refusals::number(r) as u64)
        .word(b"\n")
}
