// What a line leads to.
use noise::Released;
use roll::Refusal;

// A query's answer: who asked, the numbers released, cell by cell, and what the analyst's budget then holds.
#[derive(Clone, Copy)]
pub struct Answer {
    pub analyst: u8,
    pub released: Released,
    pub left: u8,
}

// What everybody learns of a line.
#[derive(Clone, Copy)]
pub enum Outcome {
    Answered(Answer),
    Edited,
    Refused(Refusal),
}
