// Cases for the layers below: what each text is answered.
#![tactic(auto)]

#[cfg(test)]
mod calls;
#[cfg(test)]
mod checking;
#[cfg(test)]
mod finding;
#[cfg(test)]
mod holding;
#[cfg(test)]
mod licences;
#[cfg(test)]
mod printing;
#[cfg(test)]
mod reading;
#[cfg(test)]
mod runs;
#[cfg(test)]
mod sweeps;
