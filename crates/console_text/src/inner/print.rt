// What is printed: standard output behind a buffer of fixed size, and how lists are shown.
ghost use Rattle.std.specs.Prelude.{◌+◌, ◌≤◌};
ghost use Rattle.console_text.specs.declared.inner.print.TheConstants.{CAPACITY};

use std::fmt::{Display, Formatter};
use std::io::{Stdout, Write};
use std::{fmt, io};

const CAPACITY: usize = 65536;

// The buffer is written out when it is full and at the end. The console has fixed memory, and std's `BufWriter` takes its buffer from the heap.
#[derive(Drop)]
pub struct Output {
    octets: [u8; CAPACITY],
    filled: usize,
    to: Stdout,
    ghost within: { filled ≤ CAPACITY },
}

impl Output {
    pub fn new(to: Stdout) -> Output {
        Output {
            octets: [0; CAPACITY],
            filled: 0,
            to,
        }
    }
}

impl Write for Output {
    fn write(&mut self, octets: &[u8]) -> io::Result<usize> {
        if self.filled == CAPACITY {
            self.flush()?;
        }
        let n = octets.len().min(CAPACITY - self.filled);
        let end = self.filled + n;
        self.octets[self.filled..end].copy_from_slice(&octets[..n]);
        self.filled = end;
        Ok(n)
    }

    // At once where the octets fit, as they mostly do. Where they don't, the buffer is full, and `write` writes it out before the next part.
    fn write_all(&mut self, octets: &[u8]) -> io::Result<()> {
        let n = self.write(octets)?;
        for part in octets[n..].chunks(CAPACITY) {
            self.write(part)?;
        }
        Ok(())
    }

    fn flush(&mut self) -> io::Result<()> {
        self.to.write_all(&self.octets[..self.filled])?;
        self.filled = 0;
        Ok(())
    }
}

// Octets in hexadecimal, two digits each.
#[derive(Clone, Copy)]
pub struct Hex<'a>(pub &'a [u8]);

const DIGITS: &[u8; 16] = b"0123456789abcdef";

// So many octets and so many numbers are shown at once: each by itself, by `{:02x}` and `{}`, takes several times as long.
const OCTETS: usize = 128;

const NUMBERS: usize = 12;

// The digits of the first octets, as many as there is room for, and how many digits they are.
fn put_digits(octets: &[u8], text: &mut [u8; 256]) -> usize
    ensures { result ≤ 256 }
{
    let n = octets.len().min(OCTETS);
    for i in 0..n {
        text[2 * i] = DIGITS[usize::from(octets[i] / 16)];
        text[2 * i + 1] = DIGITS[usize::from(octets[i] % 16)];
    }
    2 * n
}

impl Display for Hex<'_> {
    fn fmt<W: fmt::Write>(&self, f: &mut Formatter<W>) -> fmt::Result {
        for octets in self.0.chunks(OCTETS) {
            let mut text = [0; 256];
            let end = put_digits(octets, &mut text);
            let digits = std::str::from_utf8(&text[..end]);
            f.write_str(digits.map_err(|_| fmt::Error)?)?;
        }
        Ok(())
    }
}

// Numbers, a space before each.
#[derive(Clone, Copy)]
pub struct Numbers<'a>(pub &'a [u64]);

// A space and the digits of a number, two at a time, put before `end`, and where they begin.
fn put_number(number: u64, text: &mut [u8; 256], end: usize) -> usize
    requires { (21 ≤ end) × (end ≤ 256) }
    ensures { (end ≤ result + 21) × (result ≤ end) }
{
    let mut rest = number;
    let mut at = end;
    for _ in 0..10usize {
        if rest < 10 {
            at -= 1;
            text[at] = DIGITS[rest as usize];
            break;
        }
        let two = (rest % 100) as usize;
        rest /= 100;
        at -= 2;
        text[at] = DIGITS[two / 10];
        text[at + 1] = DIGITS[two % 10];
        if rest == 0 {
            break;
        }
    }
    at -= 1;
    text[at] = b' ';
    at
}

// The first numbers, as many as there is room for, at the end of the text, and where they begin.
fn put_numbers(numbers: &[u64], text: &mut [u8; 256]) -> usize
    ensures { result ≤ 256 }
{
    let n = numbers.len().min(NUMBERS);
    let mut at = 256;
    for i in 0..n {
        at = put_number(numbers[n - 1 - i], text, at);
    }
    at
}

impl Display for Numbers<'_> {
    fn fmt<W: fmt::Write>(&self, f: &mut Formatter<W>) -> fmt::Result {
        for numbers in self.0.chunks(NUMBERS) {
            let mut text = [0; 256];
            let start = put_numbers(numbers, &mut text);
            let digits = std::str::from_utf8(&text[start..]);
            f.write_str(digits.map_err(|_| fmt::Error)?)?;
        }
        Ok(())
    }
}
