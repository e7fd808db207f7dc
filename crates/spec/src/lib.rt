// The definitions that the engine is proved against stand in specs/; the functions here say, as theorems, what they come to on the worked example.
#![tactic(auto)]

ghost use Rattle.spec.specs.TwoDeeds.{ValidationTable, RequestTable, PremisesCanBeMet};

// Which of seven policies are validated, and why the others are not.
pub fn two_deeds_validation()
    ensures { ValidationTable }
{}

// The answers to eight requests: the decision, its reasons, the errors, and whether request and entities fit.
pub fn two_deeds_requests()
    ensures { RequestTable }
{}

// A schema, policies, a request and entities that meet all that the soundness of validation asks for.
pub fn two_deeds_premises()
    ensures { PremisesCanBeMet }
{}
