// What holds of whatever a request comes to.
ghost use Rattle.method_answers.specs.Admitting.{AsksWhereKeyed, TellsItsAdmission};
ghost use Rattle.method_answers.specs.Causes.{NamesItsCause};

/// Whatever a request to an API that is a document comes to, whatever its authorizer gives, and whatever an exchange comes to that
/// it asks for: the answer names the one cause that it has, and one without a cause names none, whatever a backend's reply and the
/// rules of the API are.
pub fn an_answer_names_its_one_cause()
    ensures { NamesItsCause }
{}

/// `INVALID_API_KEY`, `THROTTLED`, `QUOTA_EXCEEDED` and `STORE_FAILURE` come of an admission alone: what a request that asks for
/// none comes to, and one that a key admits, has another cause or none; and one that is refused comes to the answer of its kind.
pub fn a_kind_of_admission_comes_of_one()
    ensures { TellsItsAdmission }
{}

/// An admission is asked for exactly where the route hits a method that asks for a key, and where that has an authorizer, the call
/// hands in a good token, and the authorizer gives a policy that allows it.
pub fn a_key_is_asked_for_where_the_method_asks_for_one()
    ensures { AsksWhereKeyed }
{}
