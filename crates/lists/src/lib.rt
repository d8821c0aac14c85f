// Lists of calls on a unit and a copy: the claim that no list makes the copy show anything but what the plain machine's registers and
// entries give. specs/Calls.antt, specs/Plain.antt and specs/Claim.antt say it; there is no code here.
#![tactic(auto)]
