// Two images in form that hold the same table get the same answers, one law for each call. No code. It uses the definitions of the
// calls that are lent an image.
#![tactic(auto)]
