//! What holds of what a prediction reads.

ghost use Rattle.prediction_input.specs.Laws.{OnePrediction};

/// Over files of the same contents two names come to one report and one list of trees, or to one refusal.
pub fn one_prediction()
    ensures { OnePrediction }
{}
