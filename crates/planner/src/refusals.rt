// A refusal by its number, with a sentence that says what to do, on standard error.

use calendar::Refusal;

// A sentence that standard error does not take is lost.
fn say(rt: &impl Eprint, sentence: &str) {
    let _ = rt.eprint(sentence);
}

// What to do about a table that is refused.
fn advise_on_table(rt: &impl Eprint, number: u32) {
    match number {
        1 => say(rt, "give 1 to 64 entries, a line each\n"),
        4 => say(rt, "the kind is unknown; give one of 0 to 12\n"),
        5 => say(
            rt,
            "an operand is no earlier entry; name entries that stand before this one, from 0 on\n",
        ),
        6 => say(
            rt,
            "x, y or z is outside the limits of its kind; keep to them, and give 0 for the rest\n",
        ),
        7 => say(
            rt,
            "an operand lacks labels; number it one by one first, by kind 12\n",
        ),
        8 => say(
            rt,
            "the row has no room; choose periods that are shorter or fit each other\n",
        ),
        9 => say(
            rt,
            "the operands are not aligned; build both from the same slots and labels\n",
        ),
        10 => say(
            rt,
            "alter would take all of a slot; take less, by a greater z\n",
        ),
        11 => say(
            rt,
            "a label would pass 1,000,000,000; shift it nearer to 0\n",
        ),
        12 => say(
            rt,
            "no day would be open; select or keep at least one slot\n",
        ),
        _ => say(
            rt,
            "give lines of six whole numbers, a space between, each with a line feed, 4,096 bytes at most\n",
        ),
    }
}

// What to do about a question that is refused.
fn advise_on_question(rt: &impl Eprint, number: u32) {
    match number {
        13 => say(rt, "the row is not sound; ask an entry of the table\n"),
        14 => say(
            rt,
            "a number is too great; stay within 1,000,000,000, lateness in 0 to 1,048,576, N within 1,000,000\n",
        ),
        15 => say(rt, "the entry has no such slot; give a label that it has\n"),
        16 => say(
            rt,
            "the slots do not make up the whole slot; ask an entry whose slots do\n",
        ),
        17 => say(
            rt,
            "the parts are more than 65,536; ask about a shorter slot\n",
        ),
        18 => say(
            rt,
            "give a number of days from 0 on, or a share of 1/256 to 1 in steps of 1/256\n",
        ),
        _ => say(
            rt,
            "there is no such date; give a month of 1 to 12 and a day of that month\n",
        ),
    }
}

// What to do about a refusal.
pub fn advise(rt: &impl Eprint, number: u32) {
    if number < 13 || number == 19 {
        advise_on_table(rt, number);
    } else {
        advise_on_question(rt, number);
    }
}

// Tells a refusal, and what to do.
pub fn tell(rt: &impl Eprint, number: u32) {
    let _ = eprint!(rt; "refused {number}: ");
    advise(rt, number);
}

// What a question is answered. A refusal is told, with what to do.
pub(crate) fn answered<T: Drop>(rt: &impl Eprint, answer: Result<T, Refusal>) -> Option<T> {
    match answer {
        Ok(value) => Some(value),
        Err(refusal) => {
            tell(rt, refusal.number());
            None
        }
    }
}

// Tells the refusal of an entry or a line, and what to do.
pub fn tell_at(rt: &impl Eprint, number: u32, entry: u32) {
    let _ = eprint!(rt; "refused {number} at {entry}: ");
    advise(rt, number);
}
