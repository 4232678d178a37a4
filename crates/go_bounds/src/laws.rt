//! Laws of checking, over every tree. The calls do nothing.

ghost use Rattle.go_bounds.specs.PackageBodies.{PackageBodiesStand};
ghost use Rattle.go_bounds.specs.Outlines.{OutlinesSign};
ghost use Rattle.go_bounds.specs.Modules.{ModulesMakePrograms, SoundModulesAreSized};
ghost use Rattle.go_bounds.specs.Laws.{ExpressionsAreThere, BodiesStand, FunctionsAdd, FunctionsMakeProgram};

/// An expression that is accepted uses variables, functions, mutexes and wait groups that are there.
pub fn expressions_are_there()
    ensures { ExpressionsAreThere }
{}

/// The lists of a body that is accepted stand in cutting order, and each of their statements uses what is there.
pub fn bodies_stand()
    ensures { BodiesStand }
{}

/// A function that is accepted adds its lists behind those before, and leaves the names as they were.
pub fn functions_add()
    ensures { FunctionsAdd }
{}

/// The bodies of a package that are accepted add functions whose lists stand one behind the other.
pub fn package_bodies_stand()
    ensures { PackageBodiesStand }
{}

/// The functions of a package have their signatures in order, each with its parameters.
pub fn outlines_sign()
    ensures { OutlinesSign }
{}

/// Functions whose lists stand one behind the other make a program.
pub fn functions_make_program()
    ensures { FunctionsMakeProgram }
{}

/// A module that is accepted makes a program.
pub fn modules_make_programs()
    ensures { ModulesMakePrograms }
{}

/// The counters of sound files are the files' own, and their `select`s are short enough.
pub fn sound_modules_are_sized()
    ensures { SoundModulesAreSized }
{}

#[cfg(test)]
mod tests {
    use super::{
        bodies_stand, expressions_are_there, functions_add, functions_make_program,
        modules_make_programs, outlines_sign, package_bodies_stand, sound_modules_are_sized,
    };

    #[test]
    fn laws_do_nothing() {
        expressions_are_there();
        bodies_stand();
        functions_add();
        functions_make_program();
        package_bodies_stand();
        outlines_sign();
        modules_make_programs();
        sound_modules_are_sized();
    }
}
