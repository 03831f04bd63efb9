//! Laws of the counts of calls. The contract of each function is a law; its body only calls the
//! functions whose laws it rests on.
ghost use Rattle.ioc_journal.specs.CountLaws.{PartsCountAlike, QuestionsCountNothing, LinksCountNothing};

use crate::legal_laws::events_have_laws;
use ioc_record::RecordKind;

/// An event that concerns held records alone counts the same among them as among all records, sends
/// the same once requests, and drops as many items.
pub fn parts_count_alike<K: RecordKind>()
    ensures { PartsCountAlike K.rules }
{
    events_have_laws::<K>();
}

/// A get, the question whether a put with notification is live, a posted event, an interrupt, and a
/// link change make no request. All but a link change drop nothing either.
pub fn questions_count_nothing<K: RecordKind>()
    ensures questions { QuestionsCountNothing K.rules }
    ensures links { LinksCountNothing K.rules }
{}
