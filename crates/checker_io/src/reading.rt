ghost use Rattle.checker_io.specs.Reading.{Asking, StopsBoth, GoesOn, AnswersOnce};

/// A reading of files `F` and refusals `R` with the answer `A`, and one that goes on from that answer, to `B`.
pub trait Following<F, R, A, B> {
    ghost first: { Asking F R A };

    ghost next: { A → Asking F R B };
}

/// Says how readings follow each other, and when one has one answer. It does nothing.
pub fn readings_follow<F, R, A, B, P: Following<F, R, A, B>>()
    ensures stop { StopsBoth P.first P.next }
    ensures next { GoesOn P.first P.next }
    ensures once { AnswersOnce P.first }
{}
