// A second reader, written apart from the first: it goes over the text once, keeps no program,
// and gives the canonical text of what it read, or the refusal.
use lparse_reader::TextFault;
use std::alloc::{AllocError, Global};

/// What a text is: a program with this canonical text, or refused.
#[derive(Debug, Drop)]
pub enum Outcome {
    Canonical(Vec<u8>),
    Refused {
        why: TextFault,
        line: u32,
        value: u64,
    },
}

/// Why the second reader stopped: a fault at a place, or want of memory.
#[derive(Debug, Drop, Clone, Copy)]
pub enum Stopped {
    At {
        why: TextFault,
        place: usize,
        value: u64,
    },
    Memory,
}

impl From<AllocError> for Stopped {
    fn from(_: AllocError) -> Stopped {
        Stopped::Memory
    }
}

type Step<T> = Result<T, Stopped>;

/// Reads the text.
pub fn second_reading(alloc: Global, text: &[u8]) -> Result<Outcome, AllocError> {
    let mut second = Second {
        text,
        place: 0,
        written: Vec::new(alloc),
    };
    match second.whole() {
        Ok(()) => Ok(Outcome::Canonical(second.written)),
        Err(Stopped::Memory) => Err(AllocError),
        Err(Stopped::At { why, place, value }) => Ok(Outcome::Refused {
            why,
            line: line_of(text, place),
            value,
        }),
    }
}

fn line_of(text: &[u8], place: usize) -> u32 {
    let mut line: u32 = 1;
    for (at, byte) in text.iter().enumerate() {
        if at < place && *byte == b'\n' {
            line = line.saturating_add(1);
        }
    }
    line
}

fn is_space(byte: u8) -> bool {
    byte == b' ' || byte == b'\t' || byte == b'\n' || byte == b'\r'
}

#[derive(Drop)]
struct Second<'a> {
    text: &'a [u8],
    place: usize,
    written: Vec<u8>,
}

impl Second<'_> {
    fn fault<T>(&self, why: TextFault, place: usize, value: u64) -> Step<T> {
        Err(Stopped::At { why, place, value })
    }

    fn byte(&self) -> Option<u8> {
        self.text.get(self.place).copied()
    }

    fn step(&mut self) {
        self.place = self.place.saturating_add(1);
    }

    // Goes to the next token, and gives its place.
    fn token(&mut self) -> Step<usize> {
        for _ in 0..self.text.len() {
            match self.byte() {
                Some(byte) if is_space(byte) => self.step(),
                _ => break,
            }
        }
        if self.byte().is_none() {
            let all = self.text.len();
            return self.fault(TextFault::EndOfInput, all, all as u64);
        }
        Ok(self.place)
    }

    fn number(&mut self) -> Step<u64> {
        let start = self.token()?;
        let mut value: u64 = 0;
        for _ in 0..self.text.len() {
            match self.byte() {
                Some(byte) if byte.is_ascii_digit() => {
                    let digit = byte.saturating_sub(b'0') as u64;
                    value = value.saturating_mul(10).saturating_add(digit);
                    if value > 2147483647 {
                        return self.fault(TextFault::NumberTooLarge, start, value);
                    }
                    self.step();
                }
                Some(byte) if !is_space(byte) => {
                    return self.fault(TextFault::NotANumber, start, byte as u64);
                }
                _ => break,
            }
        }
        Ok(value)
    }

    fn put(&mut self, byte: u8) -> Step<()> {
        match self.written.push(byte) {
            Ok(()) => Ok(()),
            Err(_) => Err(Stopped::Memory),
        }
    }

    fn write(&mut self, value: u64, end: u8) -> Step<()> {
        let mut unit: u64 = 10_000_000_000;
        let mut begun = false;
        for _ in 0..11 {
            let digit = value / unit.max(1) % 10;
            begun = begun || digit > 0 || unit == 1;
            if begun {
                self.put(digit as u8 + b'0')?;
            }
            unit /= 10;
        }
        self.put(end)
    }

    fn copied(&mut self, end: u8) -> Step<u64> {
        let value = self.number()?;
        self.write(value, end)?;
        Ok(value)
    }

    // So many numbers, and the last of the line ends it.
    fn atoms(&mut self, count: u64, ends: bool) -> Step<()> {
        for at in 0..count {
            let start = self.token()?;
            let value = self.number()?;
            if value == 0 {
                return self.fault(TextFault::AtomZero, start, 0);
            }
            let last = ends && at == count - 1;
            self.write(value, if last { b'\n' } else { b' ' })?;
        }
        Ok(())
    }

    fn weights(&mut self, count: u64) -> Step<()> {
        for at in 0..count {
            self.copied(if at == count - 1 { b'\n' } else { b' ' })?;
        }
        Ok(())
    }

    // The number of literals and of negatives; the first is given.
    fn counts(&mut self, end: u8) -> Step<u64> {
        let literals = self.copied(b' ')?;
        let start = self.token()?;
        let negatives = self.number()?;
        if negatives > literals {
            return self.fault(TextFault::NegativeCount, start, negatives);
        }
        self.write(negatives, end)?;
        Ok(literals)
    }

    fn plain_body(&mut self) -> Step<()> {
        let ahead = self.place;
        let literals = self.number()?;
        self.place = ahead;
        let literals = self.counts(if literals == 0 { b'\n' } else { b' ' })?;
        self.atoms(literals, true)
    }

    // The number of literals, without going on.
    fn literals_ahead(&mut self) -> Step<u64> {
        let here = self.place;
        let literals = self.number()?;
        self.place = here;
        Ok(literals)
    }

    fn rule(&mut self, kind: u64, start: usize) -> Step<()> {
        match kind {
            1 => {
                self.write(kind, b' ')?;
                self.atoms(1, false)?;
                self.plain_body()
            }
            2 => {
                self.write(kind, b' ')?;
                self.atoms(1, false)?;
                let literals = self.counts(b' ')?;
                self.copied(if literals == 0 { b'\n' } else { b' ' })?;
                self.atoms(literals, true)
            }
            3 | 8 => {
                self.write(kind, b' ')?;
                let heads = self.copied(b' ')?;
                self.atoms(heads, false)?;
                self.plain_body()
            }
            5 => {
                self.write(kind, b' ')?;
                self.atoms(1, false)?;
                self.copied(b' ')?;
                let ahead = self.literals_ahead()?;
                let literals = self.counts(if ahead == 0 { b'\n' } else { b' ' })?;
                self.atoms(literals, false)?;
                self.weights(literals)
            }
            6 => self.fault(TextFault::MinimizeRule, start, 6),
            _ => self.fault(TextFault::UnknownKind, start, kind),
        }
    }

    fn rules(&mut self) -> Step<()> {
        for _ in 0..self.text.len() {
            let start = self.token()?;
            let kind = self.number()?;
            if kind == 0 {
                break;
            }
            self.rule(kind, start)?;
        }
        self.write(0, b'\n')
    }

    fn name(&mut self, atom: u64, start: usize) -> Step<()> {
        match self.byte() {
            Some(b' ') | Some(b'\t') => self.step(),
            _ => return self.fault(TextFault::NameMissing, start, atom),
        }
        let from = self.place;
        for _ in 0..self.text.len() {
            match self.byte() {
                Some(byte) if byte != b'\n' => self.step(),
                _ => break,
            }
        }
        let line = self.text.get(from..self.place).unwrap_or(&[]);
        let blank = line.iter().rev().take_while(|byte| **byte == b'\r').count();
        let name = line.get(..line.len().saturating_sub(blank)).unwrap_or(&[]);
        if name.is_empty() {
            return self.fault(TextFault::NameMissing, start, atom);
        }
        self.write(atom, b' ')?;
        self.written.extend_from_slice(name)?;
        self.put(b'\n')
    }

    fn names(&mut self) -> Step<()> {
        for _ in 0..self.text.len() {
            let start = self.token()?;
            let atom = self.number()?;
            if atom == 0 {
                break;
            }
            self.name(atom, start)?;
        }
        self.write(0, b'\n')
    }

    fn marked(&mut self, sign: u8, number: u64) -> Step<()> {
        let start = self.token()?;
        let here = self.text.get(start..).unwrap_or(&[]);
        let ends = here.get(2).copied().is_none_or(is_space);
        if here.first().copied() != Some(b'B') || here.get(1).copied() != Some(sign) || !ends {
            return self.fault(TextFault::MissingMark, start, number);
        }
        self.step();
        self.step();
        self.written.extend_from_slice(&[b'B', sign, b'\n'])?;
        for _ in 0..self.text.len() {
            if self.copied(b'\n')? == 0 {
                break;
            }
        }
        Ok(())
    }

    fn whole(&mut self) -> Step<()> {
        self.rules()?;
        self.names()?;
        self.marked(b'+', 1)?;
        self.marked(b'-', 2)?;
        let start = self.token()?;
        let here = self.text.get(start..).unwrap_or(&[]);
        if here.first().copied() == Some(b'E') && here.get(1).copied().is_none_or(is_space) {
            return self.fault(TextFault::ExternalSection, start, 69);
        }
        self.copied(b'\n')?;
        match self.token() {
            Ok(place) => {
                let byte = self.byte().unwrap_or(0);
                self.fault(TextFault::TrailingText, place, byte as u64)
            }
            Err(_) => Ok(()),
        }
    }
}
