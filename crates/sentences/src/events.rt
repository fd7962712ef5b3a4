// What a sentence says of a refused event, after where it stands: what is wrong with it, and what to mend.
use crate::templates::fill;
use input::{LEAST_BYTES, MOST_BYTES};
use output::Page;
use words::long;

// 11, 13 and 14, of an event with this class and this length.
pub fn put_wrong_event<const N: usize>(page: &mut Page<N>, number: u32, class: u32, length: u32) {
    match number {
        11 => fill(
            page,
            b" is for class #, which no row has; name a class of the table.\n",
            &[long(class)],
        ),
        13 => of_length(page, class, length),
        14 => page.put_text(
            b" is a finish while the line is idle; take it out or put an arrival before it.\n",
        ),
        _ => {}
    }
}

// 12, after the class: it is the line itself, or has classes below it.
pub fn put_not_sending<const N: usize>(page: &mut Page<N>, line: bool) {
    if line {
        page.put_text(b", which is the line itself");
    } else {
        page.put_text(b", which has classes below it");
    }
    page.put_text(b"; name a class with no class below it.\n");
}

fn of_length<const N: usize>(page: &mut Page<N>, class: u32, length: u32) {
    if class == 0 {
        fill(
            page,
            b" is a finish with length #; a finish has length 0.\n",
            &[long(length)],
        );
        return;
    }
    fill(
        page,
        b", for class #, has length #; ",
        &[long(class), long(length)],
    );
    put_packet_bytes(page);
    page.put_text(b".\n");
}

// How many bytes a packet may have.
pub fn put_packet_bytes<const N: usize>(page: &mut Page<N>) {
    fill(
        page,
        b"a packet has # to # bytes",
        &[LEAST_BYTES as u64, MOST_BYTES as u64],
    );
}
