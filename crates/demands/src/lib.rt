// The three demands of the client's letter, in its own sentences, of the delivered functions. Functions without effect ensure them, so that the gate proves each.
#![tactic(auto)]

ghost use Rattle.demands.specs.Demand1.{AsksNothing, RefusedByTheFirst, StaysAsItCame};
ghost use Rattle.demands.specs.Limits.{Limits, Lists};
ghost use Rattle.demands.specs.Demand2.{DigitForDigit, ReadBack, WroteAgain};
ghost use Rattle.demands.specs.Demand3.{AfterEveryList, NoDepthBelowZero, NoWantExceeded, AvailableFromZero, TallyCourse};
ghost use Rattle.demands.specs.Friction.{Friction, WithoutFriction};
ghost use Rattle.demands.specs.Model.{Amounts, Drawing, WithNoOutlet, NoGrainKept, GreatestStep, OneFastest, NotTooLong, StandsAgain};

pub fn demand_1()
    ensures asks_nothing { AsksNothing }
    ensures refused_by_the_first { RefusedByTheFirst }
    ensures stays_as_it_came { StaysAsItCame }
{}

// 'within document 01's limits', in numbers
pub fn limits()
    ensures limits { Limits }
    ensures lists { Lists }
{}

pub fn demand_2()
    ensures digit_for_digit { DigitForDigit }
    ensures read_back { ReadBack }
    ensures wrote_again { WroteAgain }
{}

pub fn demand_3()
    ensures after_every_list { AfterEveryList }
    ensures no_depth_below_zero { NoDepthBelowZero }
    ensures no_want_exceeded { NoWantExceeded }
    ensures available_from_zero { AvailableFromZero }
    ensures tally_course { TallyCourse }
{}

// Document 01's sentences that the definitions do not show as they stand
pub fn model()
    ensures amounts { Amounts }
    ensures drawing { Drawing }
    ensures with_no_outlet { WithNoOutlet }
    ensures no_grain_kept { NoGrainKept }
    ensures greatest_step { GreatestStep }
    ensures one_fastest { OneFastest }
    ensures not_too_long { NotTooLong }
    ensures stands_again { StandsAgain }
{}

// Document 02, point 4
pub fn friction()
    ensures friction { Friction }
    ensures without_friction { WithoutFriction }
{}
