// What holds of ways and of histories.
ghost use Rattle.gate_walk.specs.Laws.{AdmitsOnce, AsksWhereKeyed, StandsInLonger, NamesItsCause, TellsItsAdmission};
ghost use Rattle.gate_walk.specs.Told.{ComesToOneThing};

/// What a seat did stands in each longer history in which it has no further entry.
pub fn acts_stand_in_longer_histories()
    ensures { StandsInLonger }
{}

/// Each answer on a way names the one cause that it has, and an answer without a cause names none.
pub fn an_answer_names_its_one_cause()
    ensures { NamesItsCause }
{}

/// `INVALID_API_KEY`, `THROTTLED`, `QUOTA_EXCEEDED` and `STORE_FAILURE` are answered only where an Admit of the way was replied so.
pub fn a_kind_of_admission_stands_behind_an_admit()
    ensures { TellsItsAdmission }
{}

/// Behind its Enter a message asks for an admission exactly where its body is not too large, its stage stands, the API is a
/// document, and the route hits a method that asks for a key and has no authorizer, or one that lets the request by.
pub fn an_admission_is_asked_for_where_a_method_asks_for_a_key()
    ensures { AsksWhereKeyed }
{}

/// On a way an admission is asked for at most once.
pub fn a_way_asks_for_one_admission()
    ensures { AdmitsOnce }
{}

/// Where clock, words, bytes and outcomes are told, no read or write fails, and one seat makes all entries, a connection comes
/// to one thing: its answers, its end and its entries follow from these.
pub fn a_connection_comes_to_one_thing()
    ensures { ComesToOneThing }
{}
