use edl::laws::written_lists_are_read_back;
use timecode::laws;
use vault_core::Tape;
use vault_core::laws::questions_of_a_list_agree;

#[test]
fn laws_hold() {
    laws::addresses_of_a_day_differ();
    laws::labels_are_read_back();
    laws::every_other_label_is_counted();
    laws::two_labels_a_minute_are_dropped();
    written_lists_are_read_back();
    questions_of_a_list_agree::<Tape>();
}
