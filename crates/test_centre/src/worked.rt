//! Worked requests of three channels, over stores that refuse each load: over lists, and over tables as the program has
//! them, with the days of late at hand.
use crate::centres::{are_answered, tables_of};
use crate::recording::Recording;
use channel_plan::PlanRow;
use channel_view::MemRows;
use rows_at_hand::RecentDays;
use std::alloc::Global;
use std::process::Abort;

/// A tape in a slot that isn't there, in one that is taken, and in one that was left.
const A_VAULT: &str = r#"
> POST /ch/1/tapes {"barcode":"T1","slot":1}
< 200 {"tape":1}
> POST /ch/1/tapes {"barcode":"T2","slot":41}
< 409 {"code":41,"refused":"BadSlot"}
> POST /ch/1/tapes {"barcode":"T2","slot":1}
< 409 {"code":42,"refused":"SlotTaken"}
> POST /ch/1/tapes/1/pull
< 200 {"tape":1}
> POST /ch/1/tapes {"barcode":"T2","slot":1}
< 200 {"tape":2}
> POST /ch/1/clips {"frames":125,"in":"05:00:00;00","tape":1,"title":"NEWS","umid":"06"}
< 409 {"code":3,"refused":"DropMark"}
"#;

/// One barcode and one UMID in two channels, a clip that is lent, planned, offered on and withdrawn.
const A_LOAN: &str = r#"
> POST /ch/1/tapes {"barcode":"T1","slot":1}
< 200 {"tape":1}
> POST /ch/2/tapes {"barcode":"T1","slot":1}
< 200 {"tape":1}
> POST /ch/3/tapes {"barcode":"T1","slot":1}
< 200 {"tape":1}
> POST /ch/1/clips {"frames":125,"in":"00:00:00:00","tape":1,"title":"NEWS",
+ "umid":"060a2b340101010501010d201300000000112233445566778899aabbccddeeff"}
< 200 {"clip":"C0000001"}
> POST /ch/2/clips {"frames":125,"in":"00:00:00:00","tape":1,"title":"NEWS",
+ "umid":"060a2b340101010501010d201300000000112233445566778899aabbccddeeff"}
< 200 {"clip":"C0000001"}
> POST /ch/2/clips {"frames":125,"in":"00:00:00:00","tape":1,"title":"SPORT",
+ "umid":"060a2b340101010501010d201300000000ffeeddccbbaa998877665544332211"}
< 200 {"clip":"C0000002"}
> POST /ch/3/clips {"frames":125,"in":"00:00:00:00","tape":1,"title":"NEWS",
+ "umid":"060a2b340101010501010d201300000000112233445566778899aabbccddeeff"}
< 200 {"clip":"C0000001"}
> POST /ch/3/offers {"clip":"C0000001","to":2}
< 200 {"offer":1}
> GET /ch/2/lent
< 200
| L0030001 open      25 00:00:00:00     125 060a2b340101010501010d201300000200112233445566778899aabbccddeeff NEWS
| LENT 1
> POST /ch/2/days {"day":1}
< 200 {"day":1}
> POST /ch/2/days/1/items {"at":"06:00:00:00","frames":125,"in":"00:00:00:00","mix":0,"source":"L0030001"}
< 200 {"item":1}
> POST /ch/2/days/1/items {"at":"06:00:05:00","frames":125,"in":"00:00:00:00","mix":0,"source":"C0000001"}
< 200 {"item":2}
> POST /ch/2/clips/1/retire
< 200 {"clip":"C0000001"}
> POST /ch/2/offers {"clip":"C0000002","to":1}
< 200 {"offer":1}
> POST /ch/3/offers {"clip":"C0000001","to":999}
< 200 {"offer":2}
> POST /ch/2/offers {"clip":"L0030001","to":1}
< 409 {"code":61,"refused":"LentClip"}
> POST /ch/3/offers/1/withdraw
< 200 {"offer":1}
> POST /ch/2/days/1/seal
< 409 {"at":"1","code":81,"refused":"Recalled"}
> GET /ch/3/offers
< 200
| 0001 C0000001 002 withdrawn
| 0002 C0000001 999 open
| OFFERS 2
> POST /ch/3/offers {"clip":"C0000001","first":1,"last":7,"to":2}
< 200 {"offer":3}
> POST /ch/2/days {"day":8}
< 200 {"day":8}
> POST /ch/2/days/8/items {"at":"06:00:00:00","frames":125,"in":"00:00:00:00","mix":0,"source":"L0030003"}
< 409 {"code":88,"refused":"OutsideWindow"}
"#;

/// Lists: an empty one, a dissolve from black, a mismatch, a speed event, an event over midnight, one past the day's
/// end.
const SOME_LISTS: &str = r#"
> POST /ch/1/tapes {"barcode":"T1","slot":1}
< 200 {"tape":1}
> POST /ch/1/clips {"frames":125,"in":"00:00:00:00","tape":1,"title":"NEWS",
+ "umid":"060a2b340101010501010d201300000000112233445566778899aabbccddeeff"}
< 200 {"clip":"C0000001"}
> POST /ch/1/days {"day":1}
< 200 {"day":1}
> POST /ch/1/days/1/import/strict
< 200 {"items":0,"skipped":0}
> POST /ch/1/days/1/import/strict
| TITLE: NIGHT\r
| FCM: NON-DROP FRAME\r
|\r
| 001  BL       V     C        00:00:00:00 00:00:00:00 06:00:00:00 06:00:00:00\r
| 001  C0000001 V     D    025 00:00:00:00 00:00:05:00 06:00:00:00 06:00:05:00\r
| * TO CLIP NAME: NEWS\r
< 200 {"items":1,"skipped":1}
> GET /ch/1/days/1/list
< 200
| TITLE: CH 001 DAY 00001
| FCM: NON-DROP FRAME
|
| 001  BL       V     C        00:00:00:00 00:00:00:00 06:00:00:00 06:00:00:00
| 001  C0000001 V     D    025 00:00:00:00 00:00:05:00 06:00:00:00 06:00:05:00
| * TO CLIP NAME: NEWS
> POST /ch/1/days/1/import/strict
| 001 BL V C 00:00:00:00 00:00:05:00 06:01:00:00 06:01:05:01
< 409 {"at":"1","code":28,"refused":"DurationMismatch"}
> POST /ch/1/days/1/import/strict
| 001 BL V C 00:00:00:00 00:00:05:00 06:01:00:00 06:01:05:01
| M2 BL 025.0 00:00:00:00
< 409 {"at":"1","code":84,"refused":"SpeedEvent"}
> POST /ch/1/days {"day":2}
< 200 {"day":2}
> POST /ch/1/days/2/import/strict
| 001 BL V C 00:00:00:00 00:00:20:00 23:59:50:00 00:00:10:00
< 200 {"items":1,"skipped":0}
> POST /ch/1/days/2/import/strict
| 001 BL V C 00:00:00:00 00:00:00:02 05:59:59:24 06:00:00:01
< 409 {"at":"1","code":86,"refused":"PastDayEnd"}
> GET /ch/1/days/2
< 200
| DAY 2 OPEN
|    1 23:59:50:00     500 C    000 BL       00:00:00:00
| ITEMS 1 FRAMES 500 OF 2160000
"#;

/// A day with a gap of one frame, which is filled; a number that is free again.
const A_GAP: &str = r#"
> POST /ch/1/days {"day":1}
< 200 {"day":1}
> POST /ch/1/days/1/items {"at":"06:00:00:00","frames":1,"in":"00:00:00:00","mix":0,"source":"BL"}
< 200 {"item":1}
> POST /ch/1/days/1/items {"at":"06:00:00:02","frames":2159998,"in":"00:00:00:00","mix":0,"source":"BLACK"}
< 200 {"item":2}
> POST /ch/1/days/1/seal
< 409 {"at":"06:00:00:01","code":76,"refused":"Gap"}
> POST /ch/1/days/1/items/1/remove
< 200 {"item":1}
> POST /ch/1/days/1/items {"at":"06:00:00:00","frames":1,"in":"00:00:00:00","mix":0,"source":"BL"}
< 200 {"item":1}
> POST /ch/1/days/1/items {"at":"06:00:00:01","frames":1,"in":"00:00:00:00","mix":0,"source":"BL"}
< 200 {"item":3}
> POST /ch/1/days/1/seal
< 200 {"day":1}
> POST /ch/1/days/1/items {"at":"06:00:00:01","frames":1,"in":"00:00:00:00","mix":0,"source":"BL"}
< 409 {"code":73,"refused":"DaySealed"}
"#;

/// What was aired of a day: batches, the same again, another, one that airs a frame twice, and the match.
const WHAT_WAS_AIRED: &str = r#"
> POST /ch/1/tapes {"barcode":"T1","slot":1}
< 200 {"tape":1}
> POST /ch/1/clips {"frames":2159000,"in":"00:00:00:00","tape":1,"title":"NEWS",
+ "umid":"060a2b340101010501010d201300000000112233445566778899aabbccddeeff"}
< 200 {"clip":"C0000001"}
> POST /ch/1/days {"day":1}
< 200 {"day":1}
> POST /ch/1/days/1/items {"at":"06:00:00:00","frames":1000,"in":"00:00:00:00","mix":0,"source":"BL"}
< 200 {"item":1}
> POST /ch/1/days/1/items {"at":"06:00:40:00","frames":2159000,"in":"00:00:00:00","mix":0,"source":"C0000001"}
< 200 {"item":2}
> POST /ch/1/days/1/seal
< 200 {"day":1}
> GET /ch/1/days/1
< 200
| DAY 1 SEALED
|    1 06:00:00:00    1000 C    000 BL       00:00:00:00
|    2 06:00:40:00 2159000 C    000 C0000001 00:00:00:00
| ITEMS 2 FRAMES 2160000 OF 2160000
> POST /ch/1/days/1/asrun/1
| 06:00:00:00,1000,BL,00:00:00:00
| 06:00:40:00,2158990,C0000001,00:00:00:00
< 200 {"batch":1,"frames":2159990}
> GET /ch/1/days/1/match
< 200
| 06:00:00:00 2159990 OK
| 05:59:59:15 10 MISSED
| OK 2159990 SLIP 0 WRONG 0 MISSED 10
> POST /ch/1/days/1/asrun/1
| 06:00:00:00,1000,BL,00:00:00:00
| 06:00:40:00,2158990,C0000001,00:00:00:00
< 200 {"batch":1,"frames":2159990}
> POST /ch/1/days/1/asrun/1
| 06:00:00:00,1000,BL,00:00:00:00
| 06:00:40:00,2158989,C0000001,00:00:00:00
< 409 {"code":93,"refused":"BatchDiffers"}
> POST /ch/1/days/1/asrun/2 06:00:40:00,2158990,C0000001,00:00:00:00
< 409 {"at":"06:00:40:00","code":92,"refused":"AiredTwice"}
"#;

/// The match of frames as planned, from another place, of another source, and not aired.
const A_MATCH: &str = r#"
> POST /ch/1/tapes {"barcode":"T1","slot":1}
< 200 {"tape":1}
> POST /ch/1/clips {"frames":2159000,"in":"00:00:00:00","tape":1,"title":"NEWS",
+ "umid":"060a2b340101010501010d201300000000112233445566778899aabbccddeeff"}
< 200 {"clip":"C0000001"}
> POST /ch/1/days {"day":1}
< 200 {"day":1}
> POST /ch/1/days/1/items {"at":"06:00:00:00","frames":1000,"in":"00:00:00:00","mix":0,"source":"BL"}
< 200 {"item":1}
> POST /ch/1/days/1/items {"at":"06:00:40:00","frames":2159000,"in":"00:00:00:00","mix":0,"source":"C0000001"}
< 200 {"item":2}
> POST /ch/1/days/1/seal
< 200 {"day":1}
> POST /ch/1/days/1/asrun/1
| 06:00:00:00,1000,BL,00:00:00:00
| 06:00:40:00,500,C0000001,00:00:00:00
| 06:01:00:00,1500,C0000001,00:00:20:05
| 06:02:00:00,750,BARS,00:00:00:00
< 200 {"batch":1,"frames":3750}
> GET /ch/1/days/1/match
< 200
| 06:00:00:00 1500 OK
| 06:01:00:00 1500 SLIP
| 06:02:00:00 750 WRONG
| 06:02:30:00 2156250 MISSED
| OK 1500 SLIP 1500 WRONG 750 MISSED 2156250
> POST /ch/1/days/1/asrun/3
< 409 {"code":94,"refused":"BatchOrder"}
> POST /ch/1/days/1/asrun/65
< 409 {"code":95,"refused":"BatchesFull"}
> POST /ch/1/days/1/asrun/2
| 07:00:00:00,1,BL,00:00:00:00
| 07:00:00:01,1,BL
< 409 {"at":"2","code":91,"refused":"RowForm"}
> POST /ch/1/days/1/asrun/2
< 200 {"batch":2,"frames":0}
"#;

const WORKED: [&str; 6] = [A_VAULT, A_LOAN, SOME_LISTS, A_GAP, WHAT_WAS_AIRED, A_MATCH];

fn plan(rt: &impl Abort, alloc: Global) -> Vec<PlanRow> {
    let mut rows = Vec::new(alloc);
    for text in [
        "1,25,06:00:00:00,40",
        "2,25,06:00:00:00,40",
        "3,25,06:00:00:00,40",
    ] {
        let row = PlanRow::read(text.as_bytes()).expect(rt, "a row");
        rows.push(row).expect(rt, "memory");
    }
    rows
}

fn are_answered_over_tables(rt: &impl Abort, alloc: Global, script: &str) {
    let tables = tables_of(rt, alloc, &plan(rt, alloc));
    let mut store = RecentDays::over(alloc, Recording::over(tables, 1));
    are_answered(rt, alloc, &mut store, script);
    let _ = store.into_store().into_store().into_connection();
}

#[test]
fn worked_requests_load_nothing(rt: HostRuntime) {
    let alloc = rt.alloc();
    for script in WORKED {
        let lists = MemRows::new(alloc, &plan(&rt, alloc)).expect(&rt, "a plan");
        are_answered(&rt, alloc, &mut Recording::over(lists, 1), script);
        are_answered_over_tables(&rt, alloc, script);
    }
}
