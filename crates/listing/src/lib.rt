// The text that `cyclerun` prints: a line per record.
#![tactic(auto)]

ghost use Rattle.std.specs.Prelude.{◌≡◌, ◌+◌, ◌≤◌, length};
ghost use Rattle.decimal.specs.Decimal.{number_most, word_most, stored};
ghost use Rattle.decimal.specs.Texts.{Appends};
ghost use Rattle.listing.specs.Listing.{delivery_text, field, line_of, line_most};

use decimal::Text;
use port::Delivery;

// The most bytes of a line.
pub const LINE_MOST: usize = 43;

// Puts a number and the space after it behind the text.
#[tactic(auto, using(decimal::proofs::Digits::number_most_lem))]
fn put_field(text: &mut Text, n: u64)
    requires { text.old.end + number_most + 1 ≤ length text.old.room.now }
    ensures { Appends text.old text.new (field n) }
{
    text.put_number(n);
    text.put_byte(b' ');
}

// Puts a delivery behind the text.
#[tactic(auto, using(decimal::proofs::Digits::word_most_lem), unfolding(crate::specs::Listing::delivery_text))]
fn put_delivery(text: &mut Text, d: Delivery)
    requires { text.old.end + word_most ≤ length text.old.room.now }
    ensures appended { Appends text.old text.new (delivery_text d) }
    ensures within { text.new.end ≤ text.old.end + word_most }
{
    match d {
        Delivery::None => text.put_byte(b'-'),
        Delivery::Unready => text.put_byte(b'?'),
        Delivery::Word(word) => text.put_number(u64::from(word)),
    }
}

// Puts the line of a record at a place, and answers the place after it.
#[tactic(auto, using(crate::proofs::Lines::number_field, crate::proofs::Lines::word_field))]
pub fn put_line(out: &mut [u8], at: usize, number: u64, answer: u32, d: Delivery) -> usize
    requires { at + line_most ≤ length out.old }
    ensures { (out.new ≡ stored out.old at (line_of number answer d))
        × (result ≡ at + length (line_of number answer d)) × (result ≤ at + line_most) }
{
    let answer_number = u64::from(answer);
    let mut text = Text { room: out, end: at };
    put_field(&mut text, number);
    put_field(&mut text, answer_number);
    put_delivery(&mut text, d);
    text.put_byte(b'\n');
    text.end
}
