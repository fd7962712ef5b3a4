// What the arguments ask for: the largest packet, the class's own bytes and the packets finished, or what is wrong with them.
ghost use Rattle.std.specs.Prelude.{◌≡◌};
ghost use Rattle.promise.specs.Arguments as arguments;

use files::Stopped;
use input::{LEAST_BYTES, MOST_BYTES};
use output::Page;
use sentences::put_packet_bytes;
use text::Field;

#[derive(Clone, Copy)]
pub struct Numbers {
    pub largest: u32,
    pub own: u32,
    pub packets: u32,
}

// The first fault in the arguments.
#[derive(Clone, Copy)]
pub enum Fault {
    LargestNoNumber,
    LargestNoPacket,
    OwnNoNumber,
    OwnTooLarge,
    PacketsNoNumber,
    PacketsTooLarge,
}

// What three fields ask for.
#[tactic(auto, unfolding(crate::specs::Arguments::asked))]
pub fn from_fields(largest: Field, own: Field, packets: Field) -> Result<Numbers, Fault>
    ensures { result ≡ arguments.asked largest own packets }
{
    match largest {
        Field::Number(n) => from_packet(n, own, packets),
        Field::Over => Err(Fault::LargestNoPacket),
        Field::Empty | Field::Other => Err(Fault::LargestNoNumber),
    }
}

fn from_packet(largest: u32, own: Field, packets: Field) -> Result<Numbers, Fault>
    ensures { result ≡ arguments.packet_asked largest own packets }
{
    if largest < LEAST_BYTES {
        return Err(Fault::LargestNoPacket);
    }
    if MOST_BYTES < largest {
        return Err(Fault::LargestNoPacket);
    }
    from_own(largest, own, packets)
}

#[tactic(auto, unfolding(crate::specs::Arguments::own_asked))]
fn from_own(largest: u32, own: Field, packets: Field) -> Result<Numbers, Fault>
    ensures { result ≡ arguments.own_asked largest own packets }
{
    match own {
        Field::Number(n) => from_packets(largest, n, packets),
        Field::Over => Err(Fault::OwnTooLarge),
        Field::Empty | Field::Other => Err(Fault::OwnNoNumber),
    }
}

#[tactic(auto, unfolding(crate::specs::Arguments::packets_asked))]
fn from_packets(largest: u32, own: u32, packets: Field) -> Result<Numbers, Fault>
    ensures { result ≡ arguments.packets_asked largest own packets }
{
    match packets {
        Field::Number(packets) => Ok(Numbers {
            largest,
            own,
            packets,
        }),
        Field::Over => Err(Fault::PacketsTooLarge),
        Field::Empty | Field::Other => Err(Fault::PacketsNoNumber),
    }
}

impl Fault {
    // Says what is wrong.
    pub fn complain(self) -> Stopped {
        let mut page: Page<256> = Page::blank();
        page.put_text(b"cannot read ");
        self.put(&mut page);
        page.put_byte(10);
        files::say(&page);
        Stopped::Failed
    }

    fn put<const N: usize>(self, page: &mut Page<N>) {
        match self {
            Fault::LargestNoNumber => page.put_text(b"LARGEST: it is not a decimal number"),
            Fault::LargestNoPacket => {
                page.put_text(b"LARGEST: ");
                put_packet_bytes(page);
            }
            Fault::OwnNoNumber => page.put_text(b"OWN: it is not a decimal number"),
            Fault::OwnTooLarge => page.put_named(b"OWN: it is over ", u32::MAX),
            Fault::PacketsNoNumber => page.put_text(b"PACKETS: it is not a decimal number"),
            Fault::PacketsTooLarge => page.put_named(b"PACKETS: it is over ", u32::MAX),
        }
    }
}
