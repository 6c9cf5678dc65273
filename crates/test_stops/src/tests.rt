//! Each stop leaves what was acknowledged, or this and what was running whole.
use crate::day::Day;
use crate::making::making_is_stopped;
use crate::messages::messages_are_stopped;
use crate::migration::migration_is_stopped;
use crate::stops::File;

#[test]
fn a_centre_whose_making_is_stopped_is_whole_or_none(rt: HostRuntime) {
    let log = making_is_stopped(&rt, rt.alloc(), File::Log);
    assert!(rt; log.stops > 10 && log.done > 0 && log.undone > 0, "{log:?}");
    let database = making_is_stopped(&rt, rt.alloc(), File::Database);
    assert!(rt; database.stops > 10, "{database:?}");
}

#[test]
fn a_stop_of_the_log_leaves_whole_messages(rt: HostRuntime) {
    let day = Day::told(&rt, rt.alloc());
    let tally = messages_are_stopped(&rt, rt.alloc(), &day, File::Log);
    assert!(rt;
        tally.stops > 100 && tally.undone > 100 && tally.done > 10,
        "{tally:?}"
    );
}

#[test]
fn a_stop_of_the_database_file_leaves_whole_messages(rt: HostRuntime) {
    let day = Day::told(&rt, rt.alloc());
    let tally = messages_are_stopped(&rt, rt.alloc(), &day, File::Database);
    assert!(rt; tally.stops > 10 && tally.undone > 10, "{tally:?}");
}

#[test]
fn a_stop_of_loans_leaves_whole_messages(rt: HostRuntime) {
    let day = Day::of_loans(&rt, rt.alloc());
    let log = messages_are_stopped(&rt, rt.alloc(), &day, File::Log);
    assert!(rt;
        log.stops > 100 && log.undone > 50 && log.done > 10,
        "{log:?}"
    );
    let database = messages_are_stopped(&rt, rt.alloc(), &day, File::Database);
    assert!(rt; database.stops > 10, "{database:?}");
}

#[test]
fn a_stop_of_an_airing_leaves_whole_messages(rt: HostRuntime) {
    let day = Day::of_an_airing(&rt, rt.alloc());
    let log = messages_are_stopped(&rt, rt.alloc(), &day, File::Log);
    assert!(rt;
        log.stops > 50 && log.undone > 20 && log.done > 5,
        "{log:?}"
    );
    let database = messages_are_stopped(&rt, rt.alloc(), &day, File::Database);
    assert!(rt; database.stops > 5, "{database:?}");
}

#[test]
fn tables_whose_migration_is_stopped_are_of_either_version(rt: HostRuntime) {
    let log = migration_is_stopped(&rt, rt.alloc(), File::Log);
    assert!(rt;
        log.stops > 100 && log.done > 0 && log.undone > 0,
        "{log:?}"
    );
    let database = migration_is_stopped(&rt, rt.alloc(), File::Database);
    assert!(rt; database.stops > 10, "{database:?}");
}
