// The two editions of an image: what is raised or lowered gets the same answers, and comes back as it was; what is written is read back as it
// was given. Laws; no code. It uses the definitions of the writer, the converters and the calls that are lent an image.
#![tactic(auto)]
