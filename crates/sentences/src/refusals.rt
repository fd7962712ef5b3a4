// What a sentence says of a refusal, after its number and its file: where it is and what to mend.
ghost use Rattle.std.specs.Prelude.{◌≡◌, ◌+◌};
ghost use Rattle.sentences.specs.Named as named;

use crate::events::{put_not_sending, put_wrong_event};
use crate::templates::fill;
use crate::{Columns, Lists};
use input::{
    LEAST_ROWS, LEAST_SHARE, MOST_DEPTH, MOST_EVENTS, MOST_IDENTIFIER, MOST_ROWS, Refusal, WHOLE,
    on_air,
};
use output::Page;
use words::{long, word};

// Of a run. Refusals go by their numbers, which are the rules' own.
pub fn sentence<const N: usize>(
    page: &mut Page<N>,
    refusal: Refusal,
    rows: u64,
    events: u64,
    table: Columns,
    list: Lists,
) {
    match refusal.number {
        2 => fill(
            page,
            b"the list has # events; give it at most #.\n",
            &[events, MOST_EVENTS as u64],
        ),
        3 => page.put_text(b"a slice lent for the results is too short.\n"),
        11..=14 => of_event(page, refusal, table.identifiers, list),
        _ => table_sentence(page, refusal, rows, table),
    }
}

// Of a class table alone.
pub fn table_sentence<const N: usize>(
    page: &mut Page<N>,
    refusal: Refusal,
    rows: u64,
    table: Columns,
) {
    match refusal.number {
        1 => of_rows(page, rows),
        4 | 5 | 15 => of_identifier(page, refusal, table.identifiers),
        6 => of_root(page, table),
        7 | 8 => of_class(page, refusal, table),
        _ => of_depth(page, refusal, table),
    }
}

fn of_rows<const N: usize>(page: &mut Page<N>, rows: u64) {
    if rows == 1 {
        fill(
            page,
            b"the table has 1 row; give it # to #.\n",
            &[LEAST_ROWS as u64, MOST_ROWS as u64],
        );
        return;
    }
    fill(
        page,
        b"the table has # rows; give it # to #.\n",
        &[rows, LEAST_ROWS as u64, MOST_ROWS as u64],
    );
}

// 4, 5 and 15: 0, one that an earlier row has, and one too large.
fn of_identifier<const N: usize>(page: &mut Page<N>, refusal: Refusal, identifiers: &[u32]) {
    let row = long(refusal.place);
    let line = line_of(refusal.place);
    let earlier = long(refusal.second);
    let identifier = word(identifiers, refusal.place);
    match refusal.number {
        4 => fill(
            page,
            b"row # (line #) has identifier 0; give it a number from 1 to #.\n",
            &[row, line, MOST_IDENTIFIER as u64],
        ),
        5 => fill(
            page,
            b"row # (line #) repeats identifier # of row # (line #); give one of the two another identifier.\n",
            &[
                row,
                line,
                long(identifier),
                earlier,
                line_of(refusal.second),
            ],
        ),
        15 => fill(
            page,
            b"row # (line #) has identifier #, which the modem cuts to its low 16 bits, #; give it a number from 1 to #.\n",
            &[
                row,
                line,
                long(identifier),
                on_air(identifier) as u64,
                MOST_IDENTIFIER as u64,
            ],
        ),
        _ => {}
    }
}

// 6, and what is likely meant where the row looks like a class.
fn of_root<const N: usize>(page: &mut Page<N>, table: Columns) {
    let identifier = long(word(table.identifiers, 0));
    let parent = long(word(table.parents, 0));
    let share = long(word(table.shares, 0));
    if as_a_class(parent, share) {
        fill(
            page,
            b"row 0 (line 2), class #, has parent # and share #, as a class does; the line's own row comes first: put it above, with parent 0 and share 0.\n",
            &[identifier, parent, share],
        );
        return;
    }
    fill(
        page,
        b"row 0 (line 2), class #, is the line itself and has parent # and share #; set both to 0.\n",
        &[identifier, parent, share],
    );
}

// Whether a row looks like a class and not like the line.
#[tactic(auto, unfolding(crate::specs::Named::as_a_class))]
fn as_a_class(parent: u64, share: u64) -> bool
    ensures { result ≡ named.as_a_class parent share }
{
    parent != 0 && share != 0
}

// 7 and 8: the parent and the share of a class.
fn of_class<const N: usize>(page: &mut Page<N>, refusal: Refusal, table: Columns) {
    let row = long(refusal.place);
    let line = line_of(refusal.place);
    let class = long(word(table.identifiers, refusal.place));
    let share = long(word(table.shares, refusal.place));
    match refusal.number {
        7 => fill(
            page,
            b"row # (line #), class #, has parent #, which is no earlier row's identifier; name the identifier of a row above it.\n",
            &[row, line, class, long(word(table.parents, refusal.place))],
        ),
        8 => fill(
            page,
            b"row # (line #), class #, has share #; give it a share from # to #.\n",
            &[row, line, class, share, LEAST_SHARE as u64, WHOLE as u64],
        ),
        _ => {}
    }
}

// 9 and 10: a class too deep, and children with too much.
fn of_depth<const N: usize>(page: &mut Page<N>, refusal: Refusal, table: Columns) {
    match refusal.number {
        9 => fill(
            page,
            b"row # (line #), class #, has depth #; put it under a class of depth # or less.\n",
            &[
                long(refusal.place),
                line_of(refusal.place),
                long(word(table.identifiers, refusal.place)),
                table.depth_of(refusal.place),
                MOST_DEPTH as u64 - 1,
            ],
        ),
        10 => of_children(page, refusal.place, table),
        _ => {}
    }
}

// 10: the children with their shares, and what these come to.
fn of_children<const N: usize>(page: &mut Page<N>, row: u32, table: Columns) {
    fill(
        page,
        b"the children of row # (line #), class #, have shares that add up to #",
        &[
            long(row),
            line_of(row),
            long(word(table.identifiers, row)),
            table.children_share(row),
        ],
    );
    table.put_children(page, row);
    fill(page, b"; bring them to # or less.\n", &[WHOLE as u64]);
}

// 11 to 14.
fn of_event<const N: usize>(
    page: &mut Page<N>,
    refusal: Refusal,
    identifiers: &[u32],
    list: Lists,
) {
    let event = refusal.place;
    let class = word(list.classes, event);
    fill(page, b"event # (line #)", &[long(event), line_of(event)]);
    if refusal.number == 12 {
        of_row(page, class, row_with(identifiers, class));
        return;
    }
    put_wrong_event(page, refusal.number, class, word(list.lengths, event));
}

// The row with this identifier, as far as a table can have rows; 0 past them, as in the definitions (`Named: row_with`).
#[tactic(auto, unfolding(crate::specs::Named::row_with))]
fn row_with(identifiers: &[u32], identifier: u32) -> u32
    ensures { result ≡ named.row_with identifier identifiers.now }
{
    let row = tables::row_of(identifiers, identifier).unwrap_or(identifiers.len());
    if row < MOST_ROWS { row as u32 } else { 0 }
}

// 12, of an event for the class of this row.
fn of_row<const N: usize>(page: &mut Page<N>, class: u32, row: u32) {
    fill(
        page,
        b" is for class #, row # (line #)",
        &[long(class), long(row), line_of(row)],
    );
    put_not_sending(page, row == 0);
}

// A file has its heading in line 1, so place 0 is in line 2.
fn line_of(place: u32) -> u64
    ensures { result ≡ place + 2 }
{
    place as u64 + 2
}
