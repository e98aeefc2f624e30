//! What a serving does, for any messages, part and table. The functions do nothing: their contracts are the laws.
ghost use Rattle.inbox.specs.Effects.{EffectLaw, MemoryLaw};

/// A serving does one of five things: it consumes a message, with an effect or without; it starts something for one;
/// it moves the one in the hand to the held list; or it changes nothing. The message was in the hand or in the held
/// list, and the part answered it. All other messages are there afterwards, each once, and so is the message that was
/// sent, if any.
pub fn servings_do_one_of_five<T, P>()
    ensures { EffectLaw T P }
{}

/// If a table never answers NoMemory, a serving answers it only if the part takes memory for the message that would be
/// served.
pub fn memory_is_wanted_for_the_served<T, P>()
    ensures { MemoryLaw T P }
{}
