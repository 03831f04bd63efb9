//! The laws on which the calls on journaled sets rest.
ghost use Rattle.ioc_journaled_set.specs.CallLaws.{CallLaws};

use ioc_journal::count_laws::parts_count_alike;
use ioc_journal::legal_laws::{
    events_are_held, events_have_laws, holders_move, holding_lasts, lists_leave_sound, live_lasts,
    one_more_has_a_place, parts_share_what_is_held, those_ended_are_over,
};
use ioc_record::RecordKind;

// States the laws of events, of held records, of puts with notification and of counts together.
pub(crate) fn calls_have_laws<K: RecordKind>()
    ensures { CallLaws K.rules }
{
    events_have_laws::<K>();
    holding_lasts::<K>();
    events_are_held::<K>();
    parts_share_what_is_held::<K>();
    lists_leave_sound::<K>();
    live_lasts::<K>();
    holders_move::<K>();
    one_more_has_a_place::<K>();
    those_ended_are_over::<K>();
    parts_count_alike::<K>();
}
