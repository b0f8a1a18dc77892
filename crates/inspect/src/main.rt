// Tells what recorded strings are: reads lines from standard input, and answers each with one line.
#![tactic(auto)]

use answers::AnswerLine;
use recordings::Splitter;
use std::io;
use std::io::Read;

// The line of input so far, how many lines were answered, and the line of the last answer.
#[derive(Drop)]
struct Inspector {
    splitter: Splitter,
    count: u64,
    line: AnswerLine,
}

impl Inspector {
    // At the start of the input.
    fn new() -> Inspector {
        Inspector {
            splitter: Splitter::new(),
            count: 0,
            line: AnswerLine::new(),
        }
    }

    // Answers each line that ends in these octets.
    fn take(&mut self, rt: &impl Print, octets: &[u8]) -> io::Result<()> {
        let mut rest = octets;
        while let Some(used) = self.splitter.feed(rest) {
            rest = &rest[used..];
            self.answer(rt)?;
        }
        Ok(())
    }

    // Answers a last line that no line feed ends.
    fn finish(&mut self, rt: &impl Print) -> io::Result<()> {
        if self.splitter.is_begun() {
            self.answer(rt)?;
        }
        Ok(())
    }

    // Answers the line that the splitter has, at once, and goes on to the next.
    fn answer(&mut self, rt: &impl Print) -> io::Result<()> {
        self.count = self.count.saturating_add(1);
        self.line.answer(self.count, self.splitter.line());
        self.splitter.restart();
        rt.write_all(self.line.as_slice())
    }
}

fn main(rt: HostRuntime) -> io::Result<()> {
    rt.write_all(b"count,direction,answer,detail\n")?;
    let mut inspector = Inspector::new();
    let mut octets = [0; 4096];
    // Nothing says that an input ends, so the turns are counted.
    for _ in 0..u64::MAX {
        let read = rt.stdin().read(&mut octets)?;
        if read == 0 {
            break;
        }
        inspector.take(&rt, &octets[..read])?;
    }
    inspector.finish(&rt)
}
