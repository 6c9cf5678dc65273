//! What channel 1 asks, and what it is answered in each centre.

/// Its tapes, clips and offers, a sealed day of which some was aired, and an open one.
pub(crate) const FIRST: &str = r#"
> POST /ch/1/tapes {"barcode":"T1","slot":1}
< 200 {"tape":1}
> POST /ch/1/tapes {"barcode":"T2","slot":2}
< 200 {"tape":2}
> POST /ch/1/tapes/2/pull
< 200 {"tape":2}
> POST /ch/1/clips {"frames":125,"in":"00:00:00:00","tape":1,"title":"NEWS",
+ "umid":"060a2b340101010501010d201300000000112233445566778899aabbccddeeff"}
< 200 {"clip":"C0000001"}
> POST /ch/1/clips {"frames":250,"in":"10:00:00:00","tape":2,"title":"SPORT",
+ "umid":"060a2b340101010501010d2013000000ffeeddccbbaa99887766554433221100"}
< 200 {"clip":"C0000002"}
> POST /ch/1/clips/2/retire
< 200 {"clip":"C0000002"}
> POST /ch/1/offers {"clip":"C0000001","to":3}
< 200 {"offer":1}
> POST /ch/1/offers {"clip":"C0000001","to":999}
< 200 {"offer":2}
> POST /ch/1/offers/1/withdraw
< 200 {"offer":1}
> POST /ch/1/days {"day":7}
< 200 {"day":7}
> POST /ch/1/days/7/items {"at":"06:00:00:00","frames":300,"in":"00:00:00:00","mix":0,"source":"BL"}
< 200 {"item":1}
> POST /ch/1/days/7/items {"at":"06:00:10:00","frames":125,"in":"00:00:00:00","mix":0,"source":"C0000001"}
< 200 {"item":2}
> POST /ch/1/days/7/items {"at":"06:00:14:05","frames":2591575,"in":"00:00:00:00","mix":0,"source":"BL"}
< 200 {"item":3}
> POST /ch/1/days/7/seal
< 200 {"day":7}
> POST /ch/1/days/7/asrun/1
| 06:00:00:00,300,BL,00:00:00:00
| 06:00:10:00,100,C0000001,00:00:00:00
< 200 {"batch":1,"frames":400}
> POST /ch/1/days {"day":8}
< 200 {"day":8}
> POST /ch/1/days/8/items {"at":"06:00:00:00","frames":30,"in":"00:00:00:00","mix":0,"source":"BARS"}
< 200 {"item":1}
"#;

/// Its four tables then.
pub(crate) const TABLES_AT_FIRST: &str = r#"
> GET /ch/1/tapes
< 200
|    1 T1          1
|    2 T2        out
| TAPES 2 SHELVED 1 SLOTS 40
> GET /ch/1/clips
< 200
| C0000001 active  00:00:00:00     125    1 060a2b340101010501010d201300000000112233445566778899aabbccddeeff NEWS
| C0000002 retired 10:00:00:00     250    2 060a2b340101010501010d2013000000ffeeddccbbaa99887766554433221100 SPORT
| CLIPS 2
> GET /ch/1/offers
< 200
| 0001 C0000001 003 withdrawn
| 0002 C0000001 999 open
| OFFERS 2
> GET /ch/1/lent
< 200
| L0020001 open      30 00:00:00:00     125 060a2b340101010501010d201300000100112233445566778899aabbccddeeff LENT NEWS
| LENT 1
"#;

/// Its tapes: barcodes, slots and numbers that others have are free for it.
pub(crate) const TAPES: &str = r#"
> POST /ch/1/tapes {"barcode":"T3","slot":41}
< 409 {"code":41,"refused":"BadSlot"}
> POST /ch/1/tapes {"barcode":"T1","slot":3}
< 409 {"code":43,"refused":"BarcodeKnown"}
> POST /ch/1/tapes {"barcode":"X9","slot":1}
< 409 {"code":42,"refused":"SlotTaken"}
> POST /ch/1/tapes {"barcode":"BL","slot":3}
< 409 {"code":44,"refused":"BarcodeForm"}
> POST /ch/1/tapes {"barcode":"A0017","slot":2}
< 200 {"tape":3}
> POST /ch/1/tapes/2/shelve {"slot":2}
< 409 {"code":42,"refused":"SlotTaken"}
> POST /ch/1/tapes/2/shelve {"slot":0}
< 409 {"code":41,"refused":"BadSlot"}
> POST /ch/1/tapes/2/shelve {"slot":3}
< 200 {"tape":2}
> POST /ch/1/tapes/2/shelve {"slot":4}
< 409 {"code":47,"refused":"TapeShelved"}
> POST /ch/1/tapes/1/pull
< 200 {"tape":1}
> POST /ch/1/tapes/1/pull
< 409 {"code":46,"refused":"TapeOut"}
> POST /ch/1/tapes/9/pull
< 409 {"code":45,"refused":"NoTape"}
"#;

/// Its clips: UMIDs that others have are free for it.
pub(crate) const CLIPS: &str = r#"
> POST /ch/1/clips {"frames":1,"in":"00:00:01:00","tape":3,"title":"THIRD",
+ "umid":"060a2b340101010501010d201300000001010101010101010101010101010101"}
< 200 {"clip":"C0000003"}
> POST /ch/1/clips {"frames":1,"in":"00:00:01:00","tape":3,"title":"THIRD",
+ "umid":"060a2b340101010501010d201300000001010101010101010101010101010101"}
< 409 {"code":51,"refused":"UmidKnown"}
> POST /ch/1/clips/3/retire
< 200 {"clip":"C0000003"}
> POST /ch/1/clips/3/retire
< 409 {"code":55,"refused":"ClipRetired"}
> POST /ch/1/clips/9/retire
< 409 {"code":54,"refused":"NoClip"}
"#;

/// Its offers: nobody looks at what they are to others, or whether these are there.
pub(crate) const OFFERS: &str = r#"
> POST /ch/1/offers {"clip":"C0000001","to":2}
< 200 {"offer":3}
> POST /ch/1/offers {"clip":"C0000001","to":2}
< 409 {"code":64,"refused":"AlreadyOffered"}
> POST /ch/1/offers {"clip":"C0000001","to":999}
< 409 {"code":64,"refused":"AlreadyOffered"}
> POST /ch/1/offers {"clip":"C0000002","to":2}
< 409 {"code":55,"refused":"ClipRetired"}
> POST /ch/1/offers {"clip":"C0000009","to":2}
< 409 {"code":54,"refused":"NoClip"}
> POST /ch/1/offers {"clip":"L0020001","to":3}
< 409 {"code":61,"refused":"LentClip"}
> POST /ch/1/offers {"clip":"C0000001","to":1}
< 409 {"code":62,"refused":"ToSelf"}
> POST /ch/1/offers {"clip":"C0000001","to":1000}
< 409 {"code":63,"refused":"BadChannel"}
> POST /ch/1/offers/2/withdraw
< 200 {"offer":2}
> POST /ch/1/offers/2/withdraw
< 409 {"code":66,"refused":"Withdrawn"}
> POST /ch/1/offers/9/withdraw
< 409 {"code":65,"refused":"NoOffer"}
"#;

/// Its open day: what channel 2 lends it is there, what others lend one another isn't.
pub(crate) const ITEMS: &str = r#"
> POST /ch/1/days {"day":7}
< 409 {"code":72,"refused":"DayKnown"}
> POST /ch/1/days/8/items {"at":"06:00:01:00","frames":125,"in":"00:00:00:00","mix":25,"source":"L0020001"}
< 200 {"item":2}
> POST /ch/1/days/8/items {"at":"06:00:10:00","frames":1,"in":"10:00:00:00","mix":0,"source":"C0000002"}
< 409 {"code":55,"refused":"ClipRetired"}
> POST /ch/1/days/8/items {"at":"06:00:10:00","frames":1,"in":"00:00:00:00","mix":0,"source":"C0000009"}
< 409 {"code":77,"refused":"NoSource"}
> POST /ch/1/days/8/items {"at":"06:00:10:00","frames":1,"in":"00:00:00:00","mix":0,"source":"L0030001"}
< 409 {"code":77,"refused":"NoSource"}
> POST /ch/1/days/8/items {"at":"06:00:00:29","frames":2,"in":"00:00:00:00","mix":0,"source":"BL"}
< 409 {"at":"06:00:00:29","code":75,"refused":"Overlap"}
> POST /ch/1/days/8/items/1/remove
< 200 {"item":1}
> POST /ch/1/days/8/items/1/remove
< 409 {"code":82,"refused":"NoItem"}
> POST /ch/1/days/8/import/strict
| TITLE: LATER
| 001  L0020001 V     C        00:00:00:00 00:00:01:00 07:00:00:00 07:00:01:00
< 200 {"items":1,"skipped":0}
> POST /ch/1/days/8/import/strict
| 001  C0000001 V     C        00:00:00:00 00:00:01:00 08:00:00:00 08:00:01:01
< 409 {"at":"1","code":28,"refused":"DurationMismatch"}
> POST /ch/1/days/8/import/ignore
| 001  C0000001 V     C        00:00:00:00 00:00:01:00 08:00:00:00 08:00:01:01
< 200 {"items":1,"skipped":0}
> POST /ch/1/days/8/seal
< 409 {"at":"06:00:00:00","code":76,"refused":"Gap"}
> GET /ch/1/days/8
< 200
| DAY 8 OPEN
|    2 06:00:01:00     125 D    025 L0020001 00:00:00:00
|    1 07:00:00:00      30 C    000 L0020001 00:00:00:00
|    3 08:00:00:00      30 C    000 C0000001 00:00:00:00
| ITEMS 3 FRAMES 185 OF 2592000
> GET /ch/1/days/8/list
< 200
| TITLE: CH 001 DAY 00008
| FCM: NON-DROP FRAME
|
| 001  BL       V     C        00:00:00:00 00:00:00:00 06:00:01:00 06:00:01:00
| 001  L0020001 V     D    025 00:00:00:00 00:00:04:05 06:00:01:00 06:00:05:05
| * TO CLIP NAME: LENT NEWS
| 002  L0020001 V     C        00:00:00:00 00:00:01:00 07:00:00:00 07:00:01:00
| * FROM CLIP NAME: LENT NEWS
| 003  C0000001 V     C        00:00:00:00 00:00:01:00 08:00:00:00 08:00:01:00
| * FROM CLIP NAME: NEWS
"#;

/// A day of its own that it seals, whatever is sealed of this number by others.
pub(crate) const DAYS: &str = r#"
> POST /ch/1/days {"day":9}
< 200 {"day":9}
> POST /ch/1/days/9/items {"at":"06:00:00:00","frames":2592000,"in":"00:00:00:00","mix":0,"source":"BL"}
< 200 {"item":1}
> POST /ch/1/days/9/seal
< 200 {"day":9}
> POST /ch/1/days/9/items/1/remove
< 409 {"code":73,"refused":"DaySealed"}
> GET /ch/1/days/9/list
< 409 {"code":89,"refused":"WholeDay"}
> GET /ch/1/days/5
< 409 {"code":71,"refused":"NoDay"}
> GET /ch/1/days/7
< 200
| DAY 7 SEALED
|    1 06:00:00:00     300 C    000 BL       00:00:00:00
|    2 06:00:10:00     125 C    000 C0000001 00:00:00:00
|    3 06:00:14:05 2591575 C    000 BL       00:00:00:00
| ITEMS 3 FRAMES 2592000 OF 2592000
"#;

/// What it aired: batches, their numbers and frames that others have are free for it.
pub(crate) const AIRED: &str = r#"
> POST /ch/1/days/7/asrun/1
| 06:00:00:00,300,BLACK,00:00:00:00
| 06:00:10:00,100,C0000001,00:00:00:00
< 200 {"batch":1,"frames":400}
> POST /ch/1/days/7/asrun/1 06:00:00:00,300,BL,00:00:00:00
< 409 {"code":93,"refused":"BatchDiffers"}
> POST /ch/1/days/7/asrun/2 06:00:13:09,26,C0000001,00:00:03:09
< 409 {"at":"06:00:13:09","code":92,"refused":"AiredTwice"}
> POST /ch/1/days/7/asrun/2
| 06:00:13:10,25,C0000001,00:00:04:00
| 06:00:14:05,30,BARS,00:00:00:00
< 200 {"batch":2,"frames":55}
> POST /ch/1/days/7/asrun/4
< 409 {"code":94,"refused":"BatchOrder"}
> POST /ch/1/days/7/asrun/65
< 409 {"code":95,"refused":"BatchesFull"}
> POST /ch/1/days/7/asrun/3 06:00:20:00,1,BL
< 409 {"at":"1","code":91,"refused":"RowForm"}
> POST /ch/1/days/7/asrun/3 05:59:59:29,2,BL,00:00:00:00
< 409 {"at":"1","code":86,"refused":"PastDayEnd"}
> POST /ch/1/days/8/asrun/1
< 409 {"code":74,"refused":"NotSealed"}
> POST /ch/1/days/5/asrun/1
< 409 {"code":71,"refused":"NoDay"}
> POST /ch/1/days/9/asrun/1 06:00:00:00,1,BARS,00:00:00:00
< 200 {"batch":1,"frames":1}
> GET /ch/1/days/7/match
< 200
| 06:00:00:00 400 OK
| 06:00:13:10 25 SLIP
| 06:00:14:05 30 WRONG
| 06:00:15:05 2591545 MISSED
| OK 400 SLIP 25 WRONG 30 MISSED 2591545
> GET /ch/1/days/9/match
< 200
| 06:00:00:00 1 WRONG
| 06:00:00:01 2591999 MISSED
| OK 0 SLIP 0 WRONG 1 MISSED 2591999
> GET /ch/1/days/8/match
< 409 {"code":74,"refused":"NotSealed"}
> GET /ch/1/days/5/match
< 409 {"code":71,"refused":"NoDay"}
"#;

/// Its four tables at last.
pub(crate) const TABLES_AT_LAST: &str = r#"
> GET /ch/1/tapes
< 200
|    1 T1        out
|    2 T2          3
|    3 A0017       2
| TAPES 3 SHELVED 2 SLOTS 40
> GET /ch/1/clips
< 200
| C0000001 active  00:00:00:00     125    1 060a2b340101010501010d201300000000112233445566778899aabbccddeeff NEWS
| C0000002 retired 10:00:00:00     250    2 060a2b340101010501010d2013000000ffeeddccbbaa99887766554433221100 SPORT
| C0000003 retired 00:00:01:00       1    3 060a2b340101010501010d201300000001010101010101010101010101010101 THIRD
| CLIPS 3
> GET /ch/1/offers
< 200
| 0001 C0000001 003 withdrawn
| 0002 C0000001 999 withdrawn
| 0003 C0000001 002 open
| OFFERS 3
> GET /ch/1/lent
< 200
| L0020001 open      30 00:00:00:00     125 060a2b340101010501010d201300000100112233445566778899aabbccddeeff LENT NEWS
| LENT 1
"#;
