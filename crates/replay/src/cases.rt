// The stored cases, which stand in the file one after the other.
//
// A case is a head of 66 bytes (its name in 38, then behind a space each, in 8 decimal digits, the section's length, the number of
// questions and how many bytes its walks have, and a line's end), the section's bytes, 16 bytes for each question (the section's
// address and the PC, 8 bytes each, little-endian), and the walks (`walks`).
ghost use Rattle.std.specs.Prelude.{◌≤◌, ◌<◌, length, IfSome};
ghost use Rattle.std.specs.Iterator.{at_most};

use numbers::field::{Order, u64_at};
use reading::digit;

#[derive(Clone, Copy)]
pub struct Case<'a> {
    pub name: &'a [u8],
    pub section: &'a [u8],
    pub questions: &'a [[u8; 16]],
    pub walks: &'a [u8],
}

// The cases in turn. The last one is none where it is cut.
#[derive(Drop)]
pub struct Cases<'a>(pub &'a [u8]);

impl<'a> Iterator for Cases<'a> {
    type Item = Option<Case<'a>>;

    ghost remaining = { λ s. at_most (length s.0.now) };

    fn next(&mut self) -> Option<Option<Case<'a>>> {
        let (head, behind) = self.0.split_first_chunk::<66>()?;
        let (case, rest) = case_behind(head, behind).unzip();
        self.0 = rest.unwrap_or(&[]);
        Some(case)
    }
}

// The case that a head begins, and what stands behind the case.
fn case_behind<'a>(head: &'a [u8; 66], behind: &'a [u8]) -> Option<(Case<'a>, &'a [u8])>
    ensures { IfSome result (λ found. length found.1.now ≤ length behind.now) }
{
    let (section, behind) = behind.split_at_checked(number_in(&head[39..47]))?;
    let (questions, behind) = behind.split_at_checked(questions_in(&head[48..56]))?;
    let (questions, _) = questions.as_chunks::<16>();
    let (walks, behind) = behind.split_at_checked(number_in(&head[57..65]))?;
    let case = Case {
        name: &head[..38],
        section,
        questions,
        walks,
    };
    Some((case, behind))
}

// The largest number of 8 decimal digits.
const LARGEST: usize = 99_999_999;

// The number that 8 decimal digits make.
fn number_in(digits: &[u8]) -> usize
    ensures { result < 100000000 }
{
    let number = digits.iter().fold(0usize, |number, text| {
        number.saturating_mul(10).saturating_add(digit(*text))
    });
    number.min(LARGEST)
}

// How many bytes so many questions have.
fn questions_in(digits: &[u8]) -> usize
    ensures { result < 1600000000 }
{
    number_in(digits) * 16
}

// The section's address and the PC of a question.
pub fn asked_in(question: &[u8; 16]) -> (u64, u64) {
    let address = u64_at(question, 0, Order::Little);
    let pc = u64_at(question, 8, Order::Little);
    (address, pc)
}
