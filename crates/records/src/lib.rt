// Reading captures over lent bytes: what refuses one, record by record, its records as arrivals, and each record's fields, packet and
// class. Nothing that is lent is copied, and a packet is a part of the capture's own bytes.
#![tactic(auto)]

mod fields;
mod headers;
mod numbers;
mod packets;
mod reading;
mod scanning;

pub use fields::{included, original, stamp};
pub use headers::layout_of;
pub use numbers::{half, word};
pub use packets::{class_for, packet};
use pcap::Layout;
pub use reading::{offset_of, read};
pub use scanning::check;

// ── the layout's numbers: those of pcap's specs/Headers.antt and specs/Records.antt ──

// Bytes of the file header, and of the header of each record.
pub const HEADER_BYTES: usize = 24;

pub const RECORD_BYTES: usize = 16;

// Stamps with microseconds, and stamps with nanoseconds.
const MICRO_MAGIC: u32 = 2712847316;

const NANO_MAGIC: u32 = 2712812621;

const MAJOR_VERSION: u32 = 2;

const MINOR_VERSION: u32 = 4;

// The link type of raw IP packets.
const RAW_IP: u32 = 101;

// Bytes of the shortest IPv4 header.
pub const LEAST_HEADER: usize = 20;

// ── what is answered ──

// How a capture that is not refused stores its numbers, and how many records there are.
#[derive(Clone, Copy)]
pub struct Scan {
    pub layout: Layout,
    pub records: usize,
}
