// The command line: which machine, which source, which store, how many slots, and what to seek.
use std::slice;
use thiserror::Error;
use viewer::Watch;

// A command line that is not as the usage tells, which is what is printed of it.
#[derive(Clone, Copy, Debug, Error)]
#[error("usage: walk row RULE CELL|none | tape TABLE, then signal N | recording FILE, then copies|pages|pair SLOTS, then nothing | equal WORD MASK VALUE | ones WORD N")]
pub struct Misused;

// The machine to run: a row with at most one start cell, or a tape by its table's file.
#[derive(Clone, Copy)]
pub enum Kind<'a> {
    Row { rule: u32, cell: Option<u32> },
    Tape { table: &'a str },
}

// Where the inputs come from.
#[derive(Clone, Copy)]
pub enum Feed<'a> {
    Signal(u32),
    Recording(&'a str),
}

// Where snapshots are kept.
#[derive(Clone, Copy)]
pub enum Keep {
    Copies,
    Pages,
    Pair,
}

#[derive(Clone, Copy)]
pub struct Request<'a> {
    pub kind: Kind<'a>,
    pub feed: Feed<'a>,
    pub keep: Keep,
    pub slots: u32,
    pub watch: Option<Watch>,
}

// The words of a command line that are still to be read.
#[derive(Drop)]
struct Words<'a>(slice::Iter<'a, String>);

impl<'a> Words<'a> {
    fn text(&mut self) -> Result<&'a str, Misused> {
        self.0.next().map(|word| word.as_str()).ok_or(Misused)
    }

    fn number(&mut self) -> Result<u32, Misused> {
        number(self.text()?)
    }

    fn kind(&mut self) -> Result<Kind<'a>, Misused> {
        match self.text()? {
            "row" => {
                let rule = self.number()?;
                let cell = match self.text()? {
                    "none" => None,
                    cell => Some(number(cell)?),
                };
                Ok(Kind::Row { rule, cell })
            }
            "tape" => Ok(Kind::Tape {
                table: self.text()?,
            }),
            _ => Err(Misused),
        }
    }

    fn feed(&mut self) -> Result<Feed<'a>, Misused> {
        match self.text()? {
            "signal" => Ok(Feed::Signal(self.number()?)),
            "recording" => Ok(Feed::Recording(self.text()?)),
            _ => Err(Misused),
        }
    }

    fn keep(&mut self) -> Result<Keep, Misused> {
        match self.text()? {
            "copies" => Ok(Keep::Copies),
            "pages" => Ok(Keep::Pages),
            "pair" => Ok(Keep::Pair),
            _ => Err(Misused),
        }
    }

    // What to seek, or nothing at the end of the words.
    fn watch(&mut self) -> Result<Option<Watch>, Misused> {
        let Some(kind) = self.0.next() else {
            return Ok(None);
        };
        let word = self.number()?;
        let second = self.number()?;
        match kind.as_str() {
            "equal" => Ok(Some(Watch::Equal {
                word,
                mask: second,
                value: self.number()?,
            })),
            "ones" => Ok(Some(Watch::Ones {
                word,
                least: second,
            })),
            _ => Err(Misused),
        }
    }
}

fn number(text: &str) -> Result<u32, Misused> {
    text.parse().map_err(|_| Misused)
}

// The words of a command line, the program's own name first.
pub(crate) fn read_request(args: &[String]) -> Result<Request<'_>, Misused> {
    let mut words = Words(args.iter());
    let _name = words.text()?;
    Ok(Request {
        kind: words.kind()?,
        feed: words.feed()?,
        keep: words.keep()?,
        slots: words.number()?,
        watch: words.watch()?,
    })
}
