//! What the channels beside channel 1 ask in a centre, by the numbers of both.
use channel_plan::PlanRow;
use std::alloc::Global;
use std::process::Abort;
use timecode::{Rate, day_frames, to_timecode};

const RATES: [Rate; 4] = [Rate::F24, Rate::F25, Rate::F30, Rate::Df30];

// Barcodes of channel 1, and others.
const BARCODES: [&str; 5] = ["T1", "T2", "A0017", "T3", "X9"];

const UMIDS: [&str; 3] = [
    "060a2b340101010501010d201300000000112233445566778899aabbccddeeff",
    "060a2b340101010501010d2013000000ffeeddccbbaa99887766554433221100",
    "060a2b340101010501010d201300000001010101010101010101010101010101",
];

// What the items of their open days show.
const SOURCES: [&str; 4] = ["BL", "C0000001", "BARS", "C0000001"];

// What they aired.
const REELS: [&str; 5] = ["BL", "BARS", "C0000001", "T1", "BLACK"];

/// A message, by how its first line begins and its body.
pub(crate) type Asked = (String, String);

// A number by which the channels of the centres differ.
fn mixed(centre: u16, channel: u16) -> u16 {
    centre.wrapping_mul(7).wrapping_add(channel.wrapping_mul(3))
}

/// A channel's row of the plan.
pub(crate) fn plan_row(centre: u16, channel: u16) -> PlanRow {
    let mixed = mixed(centre, channel);
    let (rate, start, slots) = match channel {
        1 => (Rate::F30, 648_000, 40),
        // It lends to channel 1, which sees its rate.
        2 => (Rate::F30, u32::from(mixed), 50 + centre % 50),
        _ => (
            RATES[usize::from(mixed % 4)],
            u32::from(mixed),
            50 + centre % 50,
        ),
    };
    PlanRow {
        ch: channel,
        rate,
        start,
        slots,
    }
}

// How a message of a channel begins.
fn post(rt: &impl Abort, alloc: Global, channel: u16, path: &str) -> String {
    format!(in alloc; "POST /ch/{channel}/{path}").expect(rt, "memory")
}

fn add(rt: &impl Abort, asked: &mut Vec<Asked>, message: Asked) {
    asked.push(message).expect(rt, "memory");
}

/// One to four tapes.
pub(crate) fn tapes_of(rt: &impl Abort, alloc: Global, centre: u16, channel: u16) -> Vec<Asked> {
    let mixed = mixed(centre, channel);
    let mut asked = Vec::new(alloc);
    for slot in 1..=1 + mixed % 4 {
        let barcode = BARCODES[usize::from(mixed.wrapping_add(slot) % 5)];
        let body = format!(in alloc; "{{\"barcode\":\"{barcode}\",\"slot\":{slot}}}").expect(
            rt, "memory",
        );
        add(rt, &mut asked, (post(rt, alloc, channel, "tapes"), body));
    }
    asked
}

/// A clip: channel 2 has the one that it lends in every centre.
pub(crate) fn clip_of(rt: &impl Abort, alloc: Global, centre: u16, channel: u16) -> Asked {
    let mixed = mixed(centre, channel);
    let (frames, title, umid) = match channel {
        2 => (125, "LENT NEWS", UMIDS[0]),
        _ => (1 + mixed % 1_000, "NEWS", UMIDS[usize::from(mixed % 3)]),
    };
    let body = format!(in alloc;
        "{{\"frames\":{frames},\"in\":\"00:00:00:00\",\"tape\":1,\"title\":\"{title}\",\"umid\":\"{umid}\"}}"
    ).expect(rt, "memory");
    (post(rt, alloc, channel, "clips"), body)
}

/// Offers. Channel 2 lends to channel 1, all others to channel 2, and each to one more, which may be none.
pub(crate) fn offers_of(rt: &impl Abort, alloc: Global, centre: u16, channel: u16) -> Vec<Asked> {
    let mixed = mixed(centre, channel);
    let first = match channel {
        2 => 1,
        _ => 2,
    };
    let mut asked = Vec::new(alloc);
    for to in [first, 3 + mixed % 17] {
        let body = format!(in alloc; "{{\"clip\":\"C0000001\",\"to\":{to}}}").expect(rt, "memory");
        add(rt, &mut asked, (post(rt, alloc, channel, "offers"), body));
    }
    asked
}

/// Which of these it asks behind that differs. What channel 2 lends to channel 1 stays, retired or not.
pub(crate) fn changes_of(rt: &impl Abort, alloc: Global, centre: u16, channel: u16) -> Vec<Asked> {
    let mixed = mixed(centre, channel);
    let mut asked = Vec::new(alloc);
    for (path, asks) in [
        ("tapes/1/pull", mixed % 2 == 0),
        ("clips/1/retire", mixed % 3 == 0),
        ("offers/2/withdraw", mixed % 5 < 2),
        ("offers/1/withdraw", channel > 2 && mixed % 7 == 0),
    ] {
        if asks {
            let message = (post(rt, alloc, channel, path), String::new(alloc));
            add(rt, &mut asked, message);
        }
    }
    asked
}

fn open_day(rt: &impl Abort, alloc: Global, channel: u16, day: u16) -> Asked {
    let body = format!(in alloc; "{{\"day\":{day}}}").expect(rt, "memory");
    (post(rt, alloc, channel, "days"), body)
}

// An item at the start of a day.
fn add_item(
    rt: &impl Abort,
    alloc: Global,
    row: PlanRow,
    day: u16,
    frames: u32,
    source: &str,
) -> Asked {
    let channel = row.ch;
    let at = to_timecode(row.start, row.rate).expect(rt, "a start");
    let start = format!(in alloc; "POST /ch/{channel}/days/{day}/items").expect(rt, "memory");
    let body = format!(in alloc;
        "{{\"at\":\"{at}\",\"frames\":{frames},\"in\":\"00:00:00:00\",\"mix\":0,\"source\":\"{source}\"}}"
    ).expect(rt, "memory");
    (start, body)
}

/// Open days of the numbers of channel 1's, and of another: day 8 has an item.
pub(crate) fn days_of(rt: &impl Abort, alloc: Global, centre: u16, channel: u16) -> Vec<Asked> {
    let mixed = mixed(centre, channel);
    let row = plan_row(centre, channel);
    let source = SOURCES[usize::from(mixed % 4)];
    let mut asked = Vec::new(alloc);
    for day in [7, 8, 10 + mixed % 90] {
        add(rt, &mut asked, open_day(rt, alloc, channel, day));
    }
    let frames = u32::from(1 + mixed % 100);
    let item = add_item(rt, alloc, row, 8, frames, source);
    add(rt, &mut asked, item);
    asked
}

/// What three of four of them do with day 7: it is black, and sealed, and some of it is aired.
pub(crate) fn airings_of(rt: &impl Abort, alloc: Global, centre: u16, channel: u16) -> Vec<Asked> {
    let mixed = mixed(centre, channel);
    let mut asked = Vec::new(alloc);
    if mixed % 4 == 3 {
        return asked;
    }
    let row = plan_row(centre, channel);
    let at = to_timecode(row.start, row.rate).expect(rt, "a start");
    let frames = 1 + mixed % 900;
    let reel = REELS[usize::from(mixed % 5)];
    let item = add_item(rt, alloc, row, 7, day_frames(row.rate), "BL");
    add(rt, &mut asked, item);
    let aired = format!(in alloc; "{at},{frames},{reel},00:00:00:00\n").expect(rt, "memory");
    for (path, body) in [
        ("days/7/seal", String::new(alloc)),
        ("days/7/asrun/1", aired),
        ("days/7/asrun/2", String::new(alloc)),
    ] {
        add(rt, &mut asked, (post(rt, alloc, channel, path), body));
    }
    asked
}
