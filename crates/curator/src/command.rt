// What a line asks for.
use query::Asked;
use roll::Row;

mod kind;
mod reading;

// An edit gives a place another row; a query asks for counts.
#[derive(Clone, Copy)]
pub enum Command {
    Edit { place: usize, row: Row },
    Ask(Asked),
}
