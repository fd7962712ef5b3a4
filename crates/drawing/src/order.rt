// The order in which a tree is drawn: a row is followed by its children in the order of rows, each with all that is below it.
use words::word;

// The row that is drawn after this one; none after the last.
pub fn following(parents: &[u32], rows: u32, row: u32) -> Option<u32> {
    next_child(parents, rows, row, row).or_else(|| next_above(parents, rows, row))
}

// The first row below another that is a child of row p.
fn next_child(parents: &[u32], rows: u32, p: u32, above: u32) -> Option<u32> {
    (above..rows).skip(1).find(|r| word(parents, *r) == p)
}

// The next child of the nearest row above that has one. No way up has more steps than there are rows.
fn next_above(parents: &[u32], rows: u32, row: u32) -> Option<u32> {
    let mut at = row;
    for _ in 0..rows {
        if at == 0 {
            return None;
        }
        let above = word(parents, at);
        let next = next_child(parents, rows, above, at);
        if next.is_some() {
            return next;
        }
        at = above;
    }
    None
}
