//! The law that records keep their types. The contract of the function is the law; its body only
//! calls the function whose law it rests on.
ghost use Rattle.ioc_engine.specs.Types.{CallsKeepTypes, ListsKeepTypes, HeldKeepTypes};

use ioc_events::call_rules::rules_are_calls;
use ioc_record::RecordKind;

/// No call changes the type of a record. So each record of a held part of the world has the type
/// that it had at the load, whatever calls were noted since.
pub fn types_stay<K: RecordKind>()
    ensures call { CallsKeepTypes K.rules }
    ensures list { ListsKeepTypes K.rules }
    ensures held { HeldKeepTypes K.rules }
{
    rules_are_calls::<K>();
}
