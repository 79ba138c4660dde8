// What the definition of a text's tokens comes to.
ghost use Rattle.token.specs.Reading.{TokensExact};

// Every text reads as tokens in exactly one way: pieces that are blanks, comments or whole tokens make it up from its start to its end.
// These are its tokens.
pub fn tokens_hold()
    ensures { TokensExact }
{}
