// The words of a line: names, numbers and octets.
ghost use Rattle.std.specs.Prelude.{◌≤◌, length, IfOk};
ghost use Rattle.std.specs.Iterator.{at_most};

// A word that is missing, one too many, or no such word as is due.
#[derive(Clone, Copy, Debug, PartialEq, Eq)]
pub struct BadWord;

// The words of a line that are left, parted by spaces.
#[derive(Drop)]
pub struct Words<'a> {
    rest: &'a [u8],
}

impl<'a> Iterator for Words<'a> {
    type Item = &'a [u8];

    ghost remaining = { λ w. at_most (length w.rest.now) };

    fn next(&mut self) -> Option<&'a [u8]> {
        let start = self.rest.iter().position(|octet| *octet != b' ')?;
        let word = &self.rest[start..];
        let end = word
            .iter()
            .position(|octet| *octet == b' ')
            .unwrap_or(word.len());
        self.rest = &word[end..];
        Some(&word[..end])
    }
}

impl<'a> Words<'a> {
    pub fn of(line: &'a [u8]) -> Words<'a> {
        Words { rest: line }
    }

    // The next word; an error where there is none.
    pub fn word(&mut self) -> Result<&'a [u8], BadWord> {
        self.next().ok_or(BadWord)
    }

    // No more words.
    pub fn end(&mut self) -> Result<(), BadWord> {
        match self.next() {
            None => Ok(()),
            Some(_) => Err(BadWord),
        }
    }

    pub fn number(&mut self) -> Result<u64, BadWord> {
        number(self.word()?)
    }

    // A number of octets, ranges or the like.
    pub fn amount(&mut self) -> Result<usize, BadWord> {
        Ok(self.number()? as usize)
    }

    pub fn amount_to(&mut self, most: usize) -> Result<usize, BadWord>
        ensures { IfOk result (λ amount. amount ≤ most) }
    {
        let amount = self.amount()?;
        if most < amount {
            return Err(BadWord);
        }
        Ok(amount)
    }

    // A number, and no more words.
    pub fn last_number(&mut self) -> Result<u64, BadWord> {
        let number = self.number()?;
        self.end()?;
        Ok(number)
    }

    // Two numbers, and no more words.
    pub fn pair(&mut self) -> Result<(u64, u64), BadWord> {
        let first = self.number()?;
        let second = self.number()?;
        self.end()?;
        Ok((first, second))
    }

    // All words that are left, each a number, into `list`.
    pub fn numbers<'n>(&mut self, list: &'n mut [u64]) -> Result<&'n [u64], BadWord> {
        let mut count = 0;
        for word in self.by_ref() {
            if list.len() <= count {
                return Err(BadWord);
            }
            list[count] = number(word)?;
            count += 1;
        }
        Ok(&list[..count])
    }

    // The last word, if there is one: octets in lower-case hexadecimal, two digits each, into `buf`.
    pub fn octets<'b>(&mut self, buf: &'b mut [u8]) -> Result<&'b [u8], BadWord> {
        let word = self.next().unwrap_or(b"");
        self.end()?;
        let (pairs, odd) = word.as_chunks::<2>();
        if !odd.is_empty() || buf.len() < pairs.len() {
            return Err(BadWord);
        }
        for (octet, [high, low]) in buf.iter_mut().zip(pairs) {
            *octet = 16 * digit(*high)? + digit(*low)?;
        }
        Ok(&buf[..pairs.len()])
    }
}

// A number: one to twenty decimal digits, at most 2^64 - 1. std's `parse` takes a sign too, and any number of zeros.
pub fn number(word: &[u8]) -> Result<u64, BadWord> {
    if word.is_empty() || 20 < word.len() {
        return Err(BadWord);
    }
    let mut n: u64 = 0;
    for octet in word {
        let digit = char::from(*octet).to_digit(10).ok_or(BadWord)?;
        let tens = n.checked_mul(10).ok_or(BadWord)?;
        n = tens.checked_add(u64::from(digit)).ok_or(BadWord)?;
    }
    Ok(n)
}

// The value of a hexadecimal digit in lower case; std's `to_digit` takes upper case too.
fn digit(octet: u8) -> Result<u8, BadWord>
    ensures { IfOk result (λ value. value ≤ 15) }
{
    match octet {
        b'0'..=b'9' => Ok(octet - b'0'),
        b'a'..=b'f' => Ok(octet - b'a' + 10),
        _ => Err(BadWord),
    }
}
