//! Laws of how a call is to end. Each is a call that does nothing and ensures the law.
ghost use Rattle.cluster_program.specs.OneEnding.{CommandEndsOneWay, GenEndsOneWay, ReadEndsOneWay};

/// What a command is to end as on a text is one ending.
pub fn law_calls_end_one_way()
    ensures of_text { ReadEndsOneWay }
    ensures of_gen { GenEndsOneWay }
    ensures of_command { CommandEndsOneWay }
{}
