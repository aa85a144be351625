// What the check of finished headings and rows comes to (document 02, Req 11).

#![tactic(auto)]

// Accepted; refused, by a refusal's number and its entry (0 for 1 to 3); or the heading or the row of that entry is wrong, the number of entries standing for the
// rest.
#[derive(Clone, Copy)]
pub enum Verdict {
    Accepted,
    Refused(u32, u32),
    Wrong(u32),
}
