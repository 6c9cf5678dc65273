//! The routes of the office, and what a path says: its route, and the numbers in it (RFC 3986, section 3.3).
ghost use Rattle.std.specs.Prelude.{◌≡◌, [], true, IfOk, None, map, ok_or, option_map, option_and_then};
ghost use Rattle.std.specs.List.{list_all};
ghost use Rattle.std.specs.Char.{is_ascii as is_ascii_byte};
ghost use Rattle.channel_view_model.specs.Days.{day_number};
ghost use Rattle.http_office_requests.specs.Request.{with_routes, post_router, get_router, route_and_numbers};
ghost use Rattle.http_office_requests.specs.Request.{channel_number, row_number};
ghost use Rattle.http_office_requests.specs.Found.{HasPlainTexts};
ghost use Rattle.http_office_requests.specs.declared.fault.AskFault.TheVariants.{NotFound};
ghost use Rattle.matchit.specs.Seek.{first};

use crate::fault::AskFault;
use channel_plan::LAST_CHANNEL;
use channel_view_model::{DayNumber, Table};
use matchit::Router;
use std::alloc::Global;
use timecode::{Unavailable, whole_number};

/// What a path asks. The paths stand in [`Routes::new`], and `command_of` makes the command of each.
#[derive(Clone, Copy)]
pub enum Route {
    AddTape,
    PullTape,
    ShelveTape,
    AddClip,
    RetireClip,
    MakeOffer,
    WithdrawOffer,
    OpenDay,
    AddItem,
    RemoveItem,
    Revise,
    ImportStrict,
    ImportIgnoring,
    Seal,
    TakeBatch,
    PlanRow,
    WriteTable(Table),
    WritePlan,
    ExportList,
    WriteMatch,
}

/// The numbers in a path, by the names that its route gives them: `None` where a part isn't one.
#[derive(Clone, Copy)]
pub struct PathNumbers {
    /// The channel, 1 to 999.
    pub channel: Option<u16>,
    /// The number of a broadcast day, 1 to 99,999.
    pub day: Option<u32>,
    /// The number of a row, 1 to 99,999.
    pub row: Option<u32>,
}

// A channel's number in a path.
fn channel_in_path(part: &str) -> Option<u16>
    ensures { result ≡ channel_number part.now }
{
    match whole_number(part.as_bytes(), 5) {
        Some(n) if n <= u64::from(LAST_CHANNEL) => Some(n as u16),
        _ => None,
    }
}

// A row's number in a path.
fn row_in_path(part: &str) -> Option<u32>
    ensures { result ≡ row_number part.now }
{
    let number = whole_number(part.as_bytes(), 5)?;
    Some(number as u32)
}

impl PathNumbers {
    /// The number of a row, where the path is to have one.
    pub(crate) fn needed_row(self) -> Result<u32, AskFault>
        ensures { result ≡ ok_or self.row NotFound }
    {
        self.row.ok_or(AskFault::NotFound)
    }

    /// The number of a broadcast day, where the path is to have one.
    pub(crate) fn needed_day(self) -> Result<DayNumber, AskFault>
        ensures { result ≡ ok_or (option_and_then day_number self.day) NotFound }
    {
        self.day.and_then(DayNumber::new).ok_or(AskFault::NotFound)
    }
}

// The router of these routes.
fn router_of(alloc: Global, routes: &[(&str, Route)]) -> Result<Router<Route>, Unavailable>
    ensures { IfOk result (λ router. router ≡ with_routes (map (λ r. (r.0.now, r.1)) routes.now) []) }
{
    let mut router = Router::new(alloc);
    for route in routes {
        if router.insert(route.0, route.1).is_err() {
            return Err(Unavailable);
        }
    }
    Ok(router)
}

/// The routes of the office by method. They are built once for many messages.
#[derive(Drop)]
pub struct Routes {
    pub(crate) post: Router<Route>,
    pub(crate) get: Router<Route>,
    ghost post_is: { post ≡ post_router },
    ghost get_is: { get ≡ get_router },
}

impl Routes {
    /// All routes of the office.
    #[tactic(auto, unfolding(crate::specs::Request::post_router, crate::specs::Request::get_router))]
    pub fn new(alloc: Global) -> Result<Routes, Unavailable> {
        let post = router_of(
            alloc,
            &[
                ("/ch/{ch}/tapes", Route::AddTape),
                ("/ch/{ch}/tapes/{n}/pull", Route::PullTape),
                ("/ch/{ch}/tapes/{n}/shelve", Route::ShelveTape),
                ("/ch/{ch}/clips", Route::AddClip),
                ("/ch/{ch}/clips/{n}/retire", Route::RetireClip),
                ("/ch/{ch}/offers", Route::MakeOffer),
                ("/ch/{ch}/offers/{n}/withdraw", Route::WithdrawOffer),
                ("/ch/{ch}/days", Route::OpenDay),
                ("/ch/{ch}/days/{day}/items", Route::AddItem),
                ("/ch/{ch}/days/{day}/items/{n}/remove", Route::RemoveItem),
                ("/ch/{ch}/days/{day}/revise", Route::Revise),
                ("/ch/{ch}/days/{day}/import/strict", Route::ImportStrict),
                ("/ch/{ch}/days/{day}/import/ignore", Route::ImportIgnoring),
                ("/ch/{ch}/days/{day}/seal", Route::Seal),
                ("/ch/{ch}/days/{day}/asrun/{n}", Route::TakeBatch),
            ],
        )?;
        let get = router_of(
            alloc,
            &[
                ("/ch/{ch}", Route::PlanRow),
                ("/ch/{ch}/tapes", Route::WriteTable(Table::Vault)),
                ("/ch/{ch}/clips", Route::WriteTable(Table::Clips)),
                ("/ch/{ch}/offers", Route::WriteTable(Table::Offers)),
                ("/ch/{ch}/lent", Route::WriteTable(Table::Lent)),
                ("/ch/{ch}/days", Route::WriteTable(Table::Days)),
                ("/ch/{ch}/days/{day}", Route::WritePlan),
                ("/ch/{ch}/days/{day}/list", Route::ExportList),
                ("/ch/{ch}/days/{day}/match", Route::WriteMatch),
            ],
        )?;
        Ok(Routes { post, get })
    }
}

/// Whether each byte is ASCII.
pub(crate) fn is_plain(path: &[u8]) -> bool
    ensures { result ≡ list_all is_ascii_byte path.now }
{
    path.iter().all(|b| b.is_ascii())
}

/// The route of a path, and the numbers in the path.
pub(crate) fn look_up(router: &Router<Route>, path: &str) -> Option<(Route, PathNumbers)>
    requires plain { list_all is_ascii_byte path.now ≡ true }
    requires texts { HasPlainTexts router.now }
    ensures { result ≡ option_map (route_and_numbers path.now) (first router.now path.now) }
{
    match router.at(path) {
        Ok(found) => {
            let channel = match found.params.get("ch") {
                Some(part) => channel_in_path(part),
                None => None,
            };
            let day = match found.params.get("day") {
                Some(part) => row_in_path(part),
                None => None,
            };
            let row = match found.params.get("n") {
                Some(part) => row_in_path(part),
                None => None,
            };
            Some((*found.value, PathNumbers { channel, day, row }))
        }
        Err(_) => None,
    }
}
