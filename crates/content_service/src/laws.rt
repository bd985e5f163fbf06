//! What follows from the words of the contracts.
ghost use Rattle.std.specs.Prelude.{◌≡◌, ◌++◌, ◌∷◌, []};
ghost use Rattle.std.specs.List.{AllByRecursion as Each};
ghost use Rattle.kvs_rules.specs.Log.{Log, Moment};
ghost use Rattle.kvs_rules.specs.Namespaces.{Setting};
ghost use Rattle.kvs_rules.specs.Answers.{IsLegalAfter, IsLegalMoment};
ghost use Rattle.content_service.specs.Agrees.{AgreesService};
ghost use Rattle.content_service.specs.Asks.{IsOthers};
ghost use Rattle.content_service.specs.Value.{ContentServiceValue};

/// Legal moments that are not about contents leave a content service where it stands.
pub fn others_leave_the_contents()
    ensures one { (v : ContentServiceValue) (set : Setting) (log : Log) (m : Moment)
        → AgreesService v set log → IsLegalMoment set log m → IsOthers set m
        → AgreesService v set (log ++ m ∷ []) }
    ensures all { (v : ContentServiceValue) (set : Setting) (log more : Log)
        → AgreesService v set log → IsLegalAfter set log more → Each (IsOthers set) more
        → AgreesService v set (log ++ more) }
{}
